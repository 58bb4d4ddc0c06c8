// Statements' offsets and the words of variables and arrays, out of the tables of lexer and parser.
ghost use Rattle.std.specs.Prelude.{◌≡◌, ◌≤◌, length, IfOk, vec_len};
ghost use Rattle.source.specs.Reading.{Within};

use std::alloc::{AllocError, Global};

// Where a token begins; one past the last begins at the end.
pub fn start_of(starts: &[usize], token: usize, end: usize) -> usize
    ensures { Within end starts.now → result ≤ end }
{
    starts.get(token).copied().unwrap_or(end)
}

// Where each statement begins.
pub fn offsets(
    heap: Global,
    starts: &[usize],
    places: &[usize],
    end: usize,
) -> Result<Vec<usize>, AllocError>
    requires { Within end starts.now }
    ensures { IfOk result (λ v. (vec_len v ≡ length places.now) × Within end v.items) }
{
    places
        .iter()
        .map(|place| start_of(starts, *place, end))
        .collect(heap)
}

// The words with these numbers; a number that is that of no word is passed over.
pub fn pick<'a>(
    heap: Global,
    words: &[&'a str],
    numbers: &[usize],
) -> Result<Vec<&'a str>, AllocError> {
    numbers
        .iter()
        .filter_map(|i| words.get(*i).copied())
        .collect(heap)
}
