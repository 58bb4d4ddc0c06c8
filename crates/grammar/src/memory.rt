// Want of memory, as a parser's error: a push gives back what it could not store, a copy of bytes does not.
ghost use Rattle.std.specs.Prelude.{◌≡◌};
ghost use Rattle.grammar.specs.declared.types.ParseError.TheVariants.{NoMemory};

use crate::types::ParseError;
use std::alloc::{AllocError, AllocFailed};

impl From<AllocError> for ParseError {
    ghost from_gives = { λ _ r. r ≡ NoMemory };

    fn from(_e: AllocError) -> ParseError {
        ParseError::NoMemory
    }
}

impl<T: Drop> From<AllocFailed<T>> for ParseError {
    ghost from_gives = { λ _ r. r ≡ NoMemory };

    fn from(_e: AllocFailed<T>) -> ParseError {
        ParseError::NoMemory
    }
}
