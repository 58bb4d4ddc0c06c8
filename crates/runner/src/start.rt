// The state in which a program's run begins, from the bytes of the command that loads the program.
ghost use Rattle.std.specs.Prelude.{◌≤◌, IfOk, vec_len};
ghost use Rattle.runner.specs.Starting.{Counts, ArraysMade, Starts};

use crate::types::{RunError, State};
use bytes_at::{byte_at, word_at};
use program::{ARRAYS, ELEMENTS, LOAD};
use std::alloc::Global;

// How many arrays the program has; none if this is no program.
fn array_count(text: &[u8]) -> Option<usize>
    ensures { Counts text.now result }
{
    let count = word_at(text, 2);
    if byte_at(text, 0) != LOAD || count > ARRAYS {
        return None;
    }
    Some(count as usize)
}

// The arrays, with zeros.
fn arrays_of(heap: Global, text: &[u8], count: usize) -> Result<Vec<Vec<u64>>, RunError>
    requires { count ≤ 16 }
    ensures { ArraysMade text.now count result }
{
    let mut arrays = Vec::new(heap);
    // By number: a chain could not say which length is refused.
    for i in 0..count {
        let length = word_at(text, 10 + 8 * i);
        if length > ELEMENTS {
            return Err(RunError::NoProgram);
        }
        arrays.push(vec![in heap; 0; length as usize]?)?;
    }
    Ok(arrays)
}

// All variables and elements are 0, and no input has been read.
pub fn start(heap: Global, text: &[u8]) -> Result<State, RunError>
    ensures starts { Starts text.now result }
    ensures few { IfOk result (λ m. vec_len m.arrays ≤ 16) }
{
    let count = array_count(text).ok_or(RunError::NoProgram)?;
    let values = vec![in heap; 0; byte_at(text, 1) as usize]?;
    let arrays = arrays_of(heap, text, count)?;
    Ok(State {
        values,
        arrays,
        read: 0,
    })
}
