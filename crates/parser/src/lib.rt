// Reads the tokens of a program's text, and encodes the program.

#![tactic(auto)]

mod cursor;
mod declaration;
mod expression;
mod operator;
mod parser;
mod statement;
mod whole;
mod write;

pub use grammar::{Expected, ParseError, expected_text};
pub use whole::{Parsed, parse};
