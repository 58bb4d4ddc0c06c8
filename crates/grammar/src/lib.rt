// The grammar of program texts.

#![tactic(auto)]

mod memory;
mod types;
mod words;

pub use types::{Expected, Kind, Operator, ParseError};
pub use words::expected_text;
