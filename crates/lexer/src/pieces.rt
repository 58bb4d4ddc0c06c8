// The token that stands at a byte, a word by its text.
ghost use Rattle.std.specs.Prelude.{◌≡◌, ◌<◌, true, length, drop, slice_index};
ghost use Rattle.lexer.specs.Lexing.{letter, digit, word_byte, run, first, first_word, first_number};
ghost use Rattle.lexer.specs.Pieces.{as_first, Ends};

use crate::error::LexError;
use crate::keys::{key_of, symbol_of};
use crate::scan::{is_digit, is_letter, is_word_byte, run_end};
use crate::types::Key;

#[derive(Clone, Copy)]
pub enum Piece<'a> {
    Word(&'a str),
    Number(u64),
    Key(Key),
}

// The word or keyword that begins at a letter, and the byte behind it.
fn word_at<'a>(text: &'a str, at: usize) -> (Piece<'a>, usize)
    requires { (at < length text.now) × (letter (slice_index text.now at) ≡ true) }
    ensures is { as_first at (Ok result) ≡ first_word (run word_byte (drop at text.now)) (drop at text.now) }
    ensures ends { Ends at (length text.now) (Ok result) }
{
    let end = run_end(text.as_bytes(), at, |b| is_word_byte(b));
    let word = &text[at..end];
    match key_of(word) {
        Some(key) => (Piece::Key(key), end),
        None => (Piece::Word(word), end),
    }
}

// The number that begins at a digit, and the byte behind it.
fn number_at<'a>(text: &'a str, at: usize) -> Result<(Piece<'a>, usize), LexError>
    requires { (at < length text.now) × (digit (slice_index text.now at) ≡ true) }
    ensures is { as_first at result ≡ first_number (run digit (drop at text.now)) (drop at text.now) }
    ensures ends { Ends at (length text.now) result }
{
    let end = run_end(text.as_bytes(), at, |b| is_digit(b));
    match text[at..end].parse::<u32>() {
        Ok(n) => Ok((Piece::Number(u64::from(n)), end)),
        Err(_) => Err(LexError::TooLarge(at)),
    }
}

// The longest piece that begins at a byte, and the byte behind it.
pub fn piece_at<'a>(text: &'a str, at: usize) -> Result<(Piece<'a>, usize), LexError>
    requires { at < length text.now }
    ensures is { as_first at result ≡ first (drop at text.now) }
    ensures ends { Ends at (length text.now) result }
{
    let byte = text.as_bytes()[at];
    if is_letter(byte) {
        return Ok(word_at(text, at));
    }
    if is_digit(byte) {
        return number_at(text, at);
    }
    match symbol_of(byte) {
        Some(key) => Ok((Piece::Key(key), at + 1)),
        None => Err(LexError::Character(at)),
    }
}
