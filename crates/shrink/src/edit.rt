// A program with one of its statements made simpler, or one of its numbers smaller.
use crate::walk::{Kind, body_at, end_at, next_at, places_of};
use crate::way::Way;
use scanner::read_number;
use std::alloc::{AllocError, Global};
use std::ops::Range;
use valid::ValidProgram;

// The number in the eight bytes at a position, as many as there are. The bytes before are not gone through: `skip` would count over each.
fn put_word(text: &mut [u8], pos: usize, n: u64) {
    let Some(rest) = text.get_mut(pos..) else {
        return;
    };
    for (byte, digit) in rest.iter_mut().zip(n.to_be_bytes()) {
        *byte = digit;
    }
}

// The statements numbered as they stand.
fn renumber(text: &mut [u8]) {
    let mut number: u64 = 0;
    let mut pos = body_at(text);
    while pos < text.len() {
        if Kind::at(text, pos).is_numbered() {
            number = number.saturating_add(1);
            put_word(text, pos + 1, number);
        }
        pos = next_at(text, pos);
    }
}

// The bytes with those in a range replaced by others.
fn replaced(
    heap: Global,
    text: &[u8],
    range: Range<usize>,
    part: &[u8],
) -> Result<Vec<u8>, AllocError> {
    let mut bytes = Vec::from_slice(heap, text.get(..range.start).unwrap_or(text))?;
    bytes.extend_from_slice(part)?;
    bytes.extend_from_slice(text.get(range.end..).unwrap_or(&[]))?;
    Ok(bytes)
}

// What is to stand in place of the statement at `pos`; none if it has no such part.
fn part_of(text: &[u8], pos: usize, way: Way) -> Option<&[u8]> {
    let kind = Kind::at(text, pos);
    let first = next_at(text, pos);
    let part = match way {
        Way::Nothing if kind == Kind::Nothing => return None,
        Way::Nothing => 0..0,
        _ if matches!(kind, Kind::Nothing | Kind::Simple) => return None,
        Way::First => first..end_at(text, first),
        Way::Second => {
            let second = end_at(text, first);
            second..end_at(text, second)
        }
    };
    Some(
        text.get(part)
            .filter(|part| !part.is_empty())
            .unwrap_or(&[0]),
    )
}

// How many statements the program has.
pub fn place_count(heap: Global, program: &ValidProgram) -> Result<usize, AllocError> {
    Ok(places_of(heap, program.bytes())?.len())
}

// The program with a statement replaced; none if it has no such part, or the program is not valid then. The way may be given by its number.
pub fn simpler(
    heap: Global,
    program: &ValidProgram,
    place: usize,
    way: impl Into<Way>,
) -> Result<Option<ValidProgram>, AllocError> {
    let way = way.into();
    let text = program.bytes();
    let places = places_of(heap, text)?;
    let Some(&start) = places.get(place) else {
        return Ok(None);
    };
    let Some(part) = part_of(text, start, way) else {
        return Ok(None);
    };
    let mut bytes = replaced(heap, text, start..end_at(text, start), part)?;
    renumber(bytes.as_mut_slice());
    Ok(ValidProgram::new(bytes))
}

// The program with the eight bytes at a position halved, as a number; none if it is 0 or the program is not valid then.
pub fn with_number(
    heap: Global,
    program: &ValidProgram,
    pos: usize,
) -> Result<Option<ValidProgram>, AllocError> {
    let text = program.bytes();
    let Some(n) = read_number(text, pos).filter(|n| *n > 0) else {
        return Ok(None);
    };
    let mut bytes = Vec::from_slice(heap, text)?;
    put_word(bytes.as_mut_slice(), pos, n / 2);
    Ok(ValidProgram::new(bytes))
}
