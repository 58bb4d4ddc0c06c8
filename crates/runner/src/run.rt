// A whole program, run.
ghost use Rattle.runner.specs.Whole.{ProgramRuns};

use crate::start::start;
use crate::statement::run_at;
use crate::types::{Outcome, RunError, Stop, Task};
use std::alloc::Global;

/// Runs the program of the command that `text` encodes on the numbers that come in; each loop goes round at most `rounds` times.
pub fn run_program<'a>(
    heap: Global,
    text: &'a [u8],
    inputs: &'a [u64],
    rounds: u64,
) -> Result<Outcome, RunError>
    ensures { ProgramRuns text.now inputs.now rounds result }
{
    let mut state = start(heap, text)?;
    let task = Task {
        text,
        inputs,
        rounds,
    };
    let body = 10 + 8 * state.arrays.len();
    match run_at(&task, body, text.len(), &mut state) {
        Ok(_) => Ok(Outcome::Finished(state)),
        Err(Stop::Fault { stmt, fault }) => Ok(Outcome::Fault {
            stmt,
            kind: fault.number(),
        }),
        Err(Stop::OutOfRounds) => Ok(Outcome::OutOfRounds),
        Err(Stop::NoProgram) => Err(RunError::NoProgram),
    }
}
