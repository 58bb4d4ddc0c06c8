// The smallest program that still shows something missing, as far as small steps lead.
use crate::trial::{Failure, ROUNDS};
use compare::examine;
use shrink::{Way, place_count, simpler, with_number};
use std::alloc::{AllocError, Global};
use valid::ValidProgram;

// At most so many steps.
const STEPS: u64 = 1000;

// The failure of a simpler program, if it still shows something missing on the same inputs.
fn still_missing(
    heap: Global,
    program: Option<ValidProgram>,
    inputs: &[u64],
) -> Result<Option<Failure>, AllocError> {
    let Some(program) = program else {
        return Ok(None);
    };
    let Some(missing) = examine(heap, &program, inputs, ROUNDS)? else {
        return Ok(None);
    };
    Ok(Some(Failure {
        program,
        inputs: Vec::from_slice(heap, inputs)?,
        missing,
    }))
}

// A step to a smaller program: a statement replaced, or the number at a position halved.
#[derive(Clone, Copy)]
enum Step {
    Replace(usize, Way),
    Halve(usize),
}

impl Step {
    fn apply(
        self,
        heap: Global,
        program: &ValidProgram,
    ) -> Result<Option<ValidProgram>, AllocError> {
        match self {
            Step::Replace(place, way) => simpler(heap, program, place, way),
            Step::Halve(pos) => with_number(heap, program, pos),
        }
    }
}

// The failure of the first smaller program that still shows something missing.
fn smaller(heap: Global, failure: &Failure) -> Result<Option<Failure>, AllocError> {
    let places = 0..place_count(heap, &failure.program)?;
    let numbers = 10..failure.program.bytes().len();
    let steps = places
        .flat_map(|place| Way::ALL.map(|way| Step::Replace(place, way)))
        .chain(numbers.map(Step::Halve));
    for step in steps {
        let program = step.apply(heap, &failure.program)?;
        if let Some(next) = still_missing(heap, program, failure.inputs.as_slice())? {
            return Ok(Some(next));
        }
    }
    Ok(None)
}

// The failure of the smallest program that the steps lead to.
pub fn shrink_failure(heap: Global, failure: Failure) -> Result<Failure, AllocError> {
    let mut best = failure;
    for _ in 0..STEPS {
        let Some(next) = smaller(heap, &best)? else {
            break;
        };
        best = next;
    }
    Ok(best)
}
