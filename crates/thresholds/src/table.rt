// A text and the thresholds collected from it, one behind the other in a table.
ghost use Rattle.std.specs.Prelude.{suc, ◌-◌, ◌≤◌, [], ◌∷◌, length};

use program::LIMIT;

/// A text that is walked over, and a table whose first `count` slots hold the thresholds so far. The table is lent, since there is no heap here.
#[derive(Drop)]
pub struct Collector<'a> {
    pub text: &'a [u8],
    pub slots: &'a mut [u64],
    pub count: usize,
    ghost within: { count ≤ length slots.now },
}

impl<'a> Collector<'a> {
    ghost use Rattle.thresholds.specs.Collecting.{SameLoans, Writes};

    // The threshold is put behind those before it, if it is a number. By index: a proof knows nothing of a slice after `get_mut`.
    fn push(&mut self, m: u64)
        ensures same { SameLoans self.old self.new }
        ensures writes { Writes (m ∷ []) self.old self.new }
    {
        if m < LIMIT && self.count < self.slots.len() {
            self.slots[self.count] = m;
            self.count += 1;
        }
    }

    // Two thresholds, one after the other.
    pub fn push_two(&mut self, m: u64, n: u64)
        ensures same { SameLoans self.old self.new }
        ensures writes { Writes (m ∷ n ∷ []) self.old self.new }
    {
        self.push(m);
        self.push(n);
    }

    // A number of the program and those beside it.
    pub fn push_around(&mut self, n: u64)
        ensures same { SameLoans self.old self.new }
        ensures writes { Writes ((n - 1) ∷ n ∷ suc n ∷ []) self.old self.new }
    {
        self.push_two(n.saturating_sub(1), n);
        self.push(n.saturating_add(1));
    }
}
