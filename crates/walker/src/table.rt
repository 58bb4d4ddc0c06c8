// The alarm table: four slots for each statement, one for each kind of fault.
ghost use Rattle.std.specs.Prelude.{◌≡◌, ℕ, List};
ghost use Rattle.analysis.specs.Reach.{alarms_at};
ghost use Rattle.interval.specs.Of.{Faulty};
ghost use Rattle.walker.specs.Table.{Marked, mark_if};

use interval::Faults;

// One slot, if the kind is there. By index: a proof knows nothing of a slice's elements after `get_mut`.
fn mark(table: &mut [u64], slot: usize, there: bool)
    ensures { table.new ≡ mark_if there slot table.old }
{
    if !there {
        return;
    }
    if slot < table.len() {
        table[slot] = 1;
    }
}

// The kinds of faults that a statement may have. An empty table records nothing: any table may be lent, so no Option says it.
pub fn mark_faults(table: &mut [u64], stmt: u64, faults: Faults)
    ensures { (ks : List ℕ) → Faulty faults ks → Marked (alarms_at stmt ks) table.old table.new }
{
    if stmt == 0 || stmt > table.len() as u64 {
        return;
    }
    let first = 4 * (stmt as usize - 1);
    mark(table, first, faults.overflow);
    mark(table, first + 1, faults.divisor);
    mark(table, first + 2, faults.index);
    mark(table, first + 3, faults.check);
}
