// A random program.
use crate::draft::Draft;
use random::Random;
use std::alloc::{AllocError, Global};
use valid::ValidProgram;

// A valid program, and the ends of its inputs' ranges.
#[derive(Drop)]
pub struct Made {
    pub program: ValidProgram,
    pub ends: Vec<u64>,
}

// A random program; none if what was written is not valid.
pub fn make_program(heap: Global, random: &mut Random) -> Result<Option<Made>, AllocError> {
    let mut draft = Draft::new(heap, *random);
    draft.program()?;
    let Draft {
        out,
        random: after,
        ends,
        ..
    } = draft;
    *random = after;
    Ok(ValidProgram::new(out).map(|program| Made { program, ends }))
}
