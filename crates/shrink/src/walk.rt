// Where the statements of a program stand.
ghost use Rattle.std.specs.Prelude.{◌<◌, length};

use bytes_at::byte_at;
use runner::{skip_stmt, skip_test};
use std::alloc::{AllocError, Global};

// What a statement is made of: nothing, no other statement, two statements, or a test and one or two statements.
#[derive(Clone, Copy, PartialEq, Eq)]
pub enum Kind {
    Nothing,
    Simple,
    Pair,
    Tested,
}

impl Kind {
    // The kind of the statement at `pos`.
    pub fn at(text: &[u8], pos: usize) -> Kind {
        match byte_at(text, pos) {
            0 => Kind::Nothing,
            5 => Kind::Pair,
            6 | 7 => Kind::Tested,
            _ => Kind::Simple,
        }
    }

    // Whether such statements have numbers.
    pub fn is_numbered(self) -> bool {
        matches!(self, Kind::Simple | Kind::Tested)
    }
}

// Where the program's statement stands.
pub fn body_at(text: &[u8]) -> usize {
    10 + 8 * usize::from(byte_at(text, 9))
}

// The end of the statement at `pos`.
pub fn end_at(text: &[u8], pos: usize) -> usize {
    skip_stmt(text, pos, text.len())
}

// Where the first statement in the one at `pos` stands, or else the one behind it: always further on.
pub fn next_at(text: &[u8], pos: usize) -> usize
    ensures { pos < length text.now → pos < result }
{
    let behind = pos.saturating_add(1);
    let next = match Kind::at(text, pos) {
        Kind::Pair => behind,
        Kind::Tested => skip_test(text, pos.saturating_add(9), text.len()),
        Kind::Nothing | Kind::Simple => end_at(text, pos),
    };
    next.max(behind)
}

// Where the program's statements stand, in order: a list, which callers count and look up.
pub fn places_of(heap: Global, text: &[u8]) -> Result<Vec<usize>, AllocError> {
    let mut places = Vec::new(heap);
    let mut pos = body_at(text);
    while pos < text.len() {
        places.push(pos)?;
        pos = next_at(text, pos);
    }
    Ok(places)
}
