// Why a text has no tokens.
ghost use Rattle.std.specs.Prelude.{◌≡◌};
ghost use Rattle.lexer.specs.declared.error.LexError.TheVariants.{NoMemory};

use std::alloc::{AllocError, AllocFailed};

// The byte of a character that begins no token, or of a number of 2^32 or more.
#[derive(Clone, Copy, PartialEq, Eq, Debug)]
pub enum LexError {
    NoMemory,
    Character(usize),
    TooLarge(usize),
}

// Both errors, since a copy of bytes has the one and a push the other.
impl From<AllocError> for LexError {
    ghost from_gives = { λ _ r. r ≡ NoMemory };

    fn from(_e: AllocError) -> LexError {
        LexError::NoMemory
    }
}

impl<T: Drop> From<AllocFailed<T>> for LexError {
    ghost from_gives = { λ _ r. r ≡ NoMemory };

    fn from(_e: AllocFailed<T>) -> LexError {
        LexError::NoMemory
    }
}
