// A text read.
ghost use Rattle.std.specs.Prelude.{◌≡◌, ℕ, List, length};
ghost use Rattle.source.specs.Reading.{Within, Wrong, Reads};

use crate::errors::{SourceError, limit_error, parse_error};
use crate::reason::Reason;
use crate::sizes::{Sizes, is_valid};
use crate::tables::{offsets, pick};
use lexer::{Lexed, lex};
use parser::{Parsed, parse};
use std::alloc::Global;

// The encoded program without the command's first byte, the byte at which each statement begins, and the words of variables and arrays.
#[derive(Drop)]
pub struct Source<'a> {
    pub program: Vec<u8>,
    pub starts: Vec<usize>,
    pub variables: Vec<&'a str>,
    pub arrays: Vec<&'a str>,
}

// A parsed program with its places and words, if it is valid.
fn assemble<'a>(
    heap: Global,
    lexed: Lexed<'a>,
    parsed: Parsed,
    end: usize,
) -> Result<Source<'a>, SourceError>
    requires { Within end lexed.starts.items }
    ensures { (bs : List ℕ) → length bs ≡ end → Reads bs result }
{
    let starts = offsets(heap, lexed.starts.as_slice(), parsed.places.as_slice(), end)?;
    let variables = pick(heap, lexed.words.as_slice(), parsed.variables.as_slice())?;
    let arrays = pick(heap, lexed.words.as_slice(), parsed.arrays.as_slice())?;
    let sizes = Sizes {
        statements: starts.len() as u64,
        vars: variables.len() as u64,
        arrays: arrays.len() as u64,
    };
    if !is_valid(heap, parsed.program.as_slice(), sizes)? {
        return Err(limit_error(parsed.program.as_slice(), starts.as_slice()));
    }
    Ok(Source {
        program: parsed.program,
        starts,
        variables,
        arrays,
    })
}

// The program of a text's tokens.
fn read_tokens<'a>(heap: Global, lexed: Lexed<'a>, end: usize) -> Result<Source<'a>, SourceError>
    requires { Within end lexed.starts.items }
    ensures { (bs : List ℕ) → length bs ≡ end → Reads bs result }
{
    let parsed = parse(heap, lexed.tokens.as_slice()).map_err(|e| parse_error(
        e,
        lexed.starts.as_slice(),
        end,
    ))?;
    assemble(heap, lexed, parsed, end)
}

fn read_text<'a>(heap: Global, text: &'a str) -> Result<Source<'a>, SourceError>
    ensures { Reads text.now result }
{
    let lexed = lex(heap, text)?;
    read_tokens(heap, lexed, text.len())
}

// Reads a program's text from its bytes.
pub fn read_source<'a>(heap: Global, bytes: &'a [u8]) -> Result<Source<'a>, SourceError>
    ensures { Reads bytes.now result }
{
    let text = std::str::from_utf8(bytes).map_err(|e| SourceError {
        offset: e.valid_up_to(),
        reason: Reason::NotText,
    })?;
    read_text(heap, text)
}
