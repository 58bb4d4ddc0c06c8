// The tokens of a text.

#![tactic(auto)]

mod error;
mod keys;
mod pieces;
mod scan;
mod types;
mod whole;
mod words;

pub use error::LexError;
pub use keys::key_of;
pub use types::{Key, Token};
pub use whole::{Lexed, lex};
