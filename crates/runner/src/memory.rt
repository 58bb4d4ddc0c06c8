// Variables, elements and inputs of a running program.
ghost use Rattle.std.specs.Prelude.{◌≡◌, ℕ, ◌+◌, ◌&&◌, List, if◌then◌else◌, nat_le, slice_index};
ghost use Rattle.program.specs.Semantics.{with_value, take_input};
ghost use Rattle.runner.specs.Of.{as_state};
ghost use Rattle.runner.specs.Changes.{element_in, Stored, ReadInput};
ghost use Rattle.runner.specs.Found.{as_evaluated};

use crate::types::State;
use program::Fault;

// An input if it is from `low` to `high`, and `low` otherwise.
fn accepted(next: u64, low: u64, high: u64) -> u64
    ensures { result ≡ (if nat_le low next && nat_le next high then next else low) }
{
    if (low..=high).contains(&next) {
        next
    } else {
        low
    }
}

impl State {
    // A variable's value; 0 if there is no such variable.
    pub(crate) fn variable(&self, x: usize) -> u64
        ensures { (ins : List ℕ) → result ≡ slice_index (as_state ins self.now).values x }
    {
        self.values.get(x).copied().unwrap_or(0)
    }

    // An element's value, or the fault that there is none.
    pub(crate) fn element(&self, r: usize, i: u64) -> Result<u64, Fault>
        ensures { (ins : List ℕ) → as_evaluated result ≡ element_in (as_state ins self.now) r i }
    {
        let row = self.arrays.get(r).ok_or(Fault::Index)?;
        row.get(i as usize).copied().ok_or(Fault::Index)
    }

    // A variable gets a value.
    pub(crate) fn assign(&mut self, x: usize, n: u64)
        ensures { (ins : List ℕ) → as_state ins self.new ≡ with_value (as_state ins self.old) x n }
    {
        if let Some(value) = self.values.get_mut(x) {
            *value = n;
        }
    }

    // An element gets a value, or there is none.
    pub(crate) fn store(&mut self, r: usize, i: u64, n: u64) -> Result<(), Fault>
        ensures { (ins : List ℕ) → Stored (as_state ins self.old) r i n result (as_state ins self.new) }
    {
        let row = self.arrays.get_mut(r).ok_or(Fault::Index)?;
        let element = row.get_mut(i as usize).ok_or(Fault::Index)?;
        *element = n;
        Ok(())
    }

    // The next input is read; one that is missing counts as 0.
    fn next_input(&mut self, inputs: &[u64]) -> u64
        ensures { ReadInput (as_state inputs.now self.old) result (as_state inputs.now self.new) }
    {
        let Some(&next) = inputs.get(self.read) else {
            return 0;
        };
        self.read += 1;
        next
    }

    // A variable gets the next input if that is from `low` to `high`, and `low` otherwise.
    pub(crate) fn input(&mut self, inputs: &[u64], x: usize, low: u64, high: u64)
        ensures { as_state inputs.now self.new ≡ take_input (as_state inputs.now self.old) x low high }
    {
        let next = self.next_input(inputs);
        self.assign(x, accepted(next, low, high));
    }
}
