// Runs valid programs: whatever the program, the inputs and the rounds, the outcome is that of the definitions.

#![tactic(auto)]

ghost use Rattle.std.specs.Prelude.{◌≡◌, IfOk};
ghost use Rattle.program.specs.Semantics.{run_program};
ghost use Rattle.runner.specs.Whole.{as_outcome};
ghost use Rattle.valid.specs.Held.{held_program};

use runner::{Outcome, RunError, run_program};
use std::alloc::{AllocError, Global};
use valid::ValidProgram;

// The outcome of a run on the numbers that come in; each loop goes round at most `rounds` times.
pub fn run_valid<'a>(
    heap: Global,
    program: &'a ValidProgram,
    inputs: &'a [u64],
    rounds: u64,
) -> Result<Outcome, AllocError>
    ensures { IfOk result (λ o. as_outcome inputs.now o ≡ run_program rounds (held_program program.now) inputs.now) }
{
    match run_program(heap, program.bytes(), inputs, rounds) {
        Ok(outcome) => Ok(outcome),
        Err(RunError::NoMemory) => Err(AllocError),
        Err(RunError::NoProgram) => unreachable(),
    }
}
