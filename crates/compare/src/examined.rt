// A program analysed, run and compared.
ghost use Rattle.std.specs.Prelude.{◌≡◌, IfOk, None};

use crate::missing::{Missing, find_missing};
use execute::run_valid;
use findings::report_on;
use std::alloc::{AllocError, Global};
use valid::ValidProgram;

// What a run shows that the analyser does not tell: nothing, whatever the program, the inputs and the rounds.
pub fn examine<'a>(
    heap: Global,
    program: &'a ValidProgram,
    inputs: &'a [u64],
    rounds: u64,
) -> Result<Option<Missing>, AllocError>
    ensures { IfOk result (λ missing. missing ≡ None) }
{
    let report = report_on(heap, program)?;
    let outcome = run_valid(heap, program, inputs, rounds)?;
    Ok(find_missing(&report, &outcome))
}
