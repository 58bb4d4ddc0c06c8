// Errors of lexer, parser and reader, as places in the text.
ghost use Rattle.std.specs.Prelude.{◌≡◌, ℕ, ◌≤◌, List, length, Err};
ghost use Rattle.source.specs.declared.reason.Reason.TheVariants.{NoMemory};
ghost use Rattle.lexer.specs.Tokens.{Lexes};
ghost use Rattle.source.specs.Reading.{Within, Wrong, Explains, reason_of};

use crate::reason::Reason;
use crate::tables::start_of;
use grammar::ParseError;
use lexer::LexError;
use limits::{Limit, find_limit};
use program::FIRST;
use std::alloc::AllocError;

#[derive(Clone, Copy)]
pub struct SourceError {
    pub offset: usize,
    pub reason: Reason,
}

impl SourceError {
    const NO_MEMORY: SourceError = SourceError {
        offset: 0,
        reason: Reason::NoMemory,
    };
}

impl From<AllocError> for SourceError {
    ghost from_gives = { λ _ s. (s.reason ≡ NoMemory) × ((bs : List ℕ) → Explains bs s) };

    fn from(_e: AllocError) -> SourceError {
        SourceError::NO_MEMORY
    }
}

impl From<LexError> for SourceError {
    ghost from_gives = { λ e s. (bs : List ℕ) → Lexes bs (Err e) → Explains bs s };

    fn from(e: LexError) -> SourceError {
        match e {
            LexError::NoMemory => SourceError::NO_MEMORY,
            LexError::Character(offset) => SourceError {
                offset,
                reason: Reason::Character,
            },
            LexError::TooLarge(offset) => SourceError {
                offset,
                reason: Reason::TooLarge,
            },
        }
    }
}

// What is wrong, and at which token: a pair, which is no type that `From` could be written for.
fn parse_reason(e: ParseError) -> (usize, Reason)
    ensures { (bs : List ℕ) (i : ℕ) → i ≤ length bs → Wrong bs i result.1 }
{
    match e {
        ParseError::NoMemory => (0, Reason::NoMemory),
        ParseError::Expected { at, what } => (at, Reason::Expected(what)),
        ParseError::Undeclared(at) => (at, Reason::Undeclared),
        ParseError::Twice(at) => (at, Reason::Twice),
        ParseError::TooMany(at) => (at, Reason::TooMany),
        ParseError::Length(at) => (at, Reason::Length),
        ParseError::Range(at) => (at, Reason::Range),
        ParseError::TooDeep(at) => (at, Reason::TooDeep),
    }
}

// Tokens that are no program.
pub fn parse_error(e: ParseError, starts: &[usize], end: usize) -> SourceError
    ensures { (bs : List ℕ) → length bs ≡ end → Within end starts.now → Explains bs result }
{
    let (token, reason) = parse_reason(e);
    SourceError {
        offset: start_of(starts, token, end),
        reason,
    }
}

impl From<Limit> for Reason {
    ghost from_gives = { λ l r. (r ≡ reason_of l) × ((bs : List ℕ) (i : ℕ) → i ≤ length bs → Wrong bs i r) };

    fn from(limit: Limit) -> Reason {
        match limit {
            Limit::Nesting => Reason::Nesting,
            Limit::Loops => Reason::Loops,
            Limit::LongTest => Reason::LongTest,
            Limit::LongProgram => Reason::LongProgram,
        }
    }
}

// Where a statement begins, by its number.
fn offset_of(offsets: &[usize], label: Option<u64>) -> usize
    ensures { (end : ℕ) → Within end offsets.now → result ≤ end }
{
    let Some(place) = label.and_then(|n| n.checked_sub(FIRST)) else {
        return 0;
    };
    offsets.get(place as usize).copied().unwrap_or(0)
}

// An encoded program that the reader refuses, by where its statements begin.
pub fn limit_error(program: &[u8], offsets: &[usize]) -> SourceError
    ensures { (bs : List ℕ) → Within (length bs) offsets.now → Explains bs result }
{
    let passed = find_limit(program);
    let offset = offset_of(offsets, passed.label);
    let reason = match passed.limit {
        Some(limit) => Reason::from(limit),
        None => Reason::Invalid,
    };
    SourceError { offset, reason }
}
