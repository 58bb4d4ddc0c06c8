// A whole program.
ghost use Rattle.std.specs.Prelude.{◌≡◌, ◌≤◌, IfOk, vec_len};

use crate::parser::Parser;
use crate::write::header;
use grammar::{Expected, ParseError};
use lexer::Token;
use std::alloc::{AllocError, Global};

// Parentheses, brackets, `not`, `if` and `while` stand at most so deep in one another.
const DEPTH: usize = 4000;

// A program: its encoding, the token at which each numbered statement begins, and the words of its variables and arrays.
#[derive(Drop)]
pub struct Parsed {
    pub program: Vec<u8>,
    pub places: Vec<usize>,
    pub variables: Vec<usize>,
    pub arrays: Vec<usize>,
}

// What a parser has read.
fn finish(heap: Global, parser: Parser) -> Result<Parsed, AllocError>
    ensures { IfOk result (λ p. (vec_len p.variables ≤ 64) × (vec_len p.arrays ≤ 16)) }
{
    let arrays = parser.arrays.iter().map(|array| array.word).collect(heap)?;
    Ok(Parsed {
        program: parser.program,
        places: parser.places,
        variables: parser.variables,
        arrays,
    })
}

/// Reads a program from the tokens of its text.
pub fn parse(heap: Global, tokens: &[Token]) -> Result<Parsed, ParseError>
    ensures { IfOk result (λ p. (vec_len p.variables ≤ 64) × (vec_len p.arrays ≤ 16)) }
{
    let mut parser = Parser::new(heap, tokens);
    parser.declarations()?;
    let variables = parser.variables.len() as u8;
    parser.program = header(heap, variables, &parser.arrays)?;
    parser.list(DEPTH)?;
    if parser.peek().is_some() {
        return Err(parser.missing(Expected::EndOfText));
    }
    Ok(finish(heap, parser)?)
}
