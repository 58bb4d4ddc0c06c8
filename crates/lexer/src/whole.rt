// A text as tokens.
ghost use Rattle.lexer.specs.Pieces.{as_piece, Small};
ghost use Rattle.lexer.specs.Tokens.{texts, Takes, Lexes};

use crate::error::LexError;
use crate::pieces::{Piece, piece_at};
use crate::scan::blanks_end;
use crate::types::Token;
use crate::words::number_of;
use std::alloc::{AllocError, Global};

// The byte at which each token begins; each different word once, in order of first appearance. Tokens and starts are two lists, since a parser reads the tokens alone.
#[derive(Drop)]
pub struct Lexed<'a> {
    pub tokens: Vec<Token>,
    pub starts: Vec<usize>,
    pub words: Vec<&'a str>,
}

// A piece as a token; a new word is put behind the others.
fn token_of<'a>(piece: Piece<'a>, words: &mut Vec<&'a str>) -> Result<Token, AllocError>
    requires { Small piece }
    ensures { Takes (texts words.old.items) (texts words.new.items) (as_piece piece.entry) result }
{
    match piece {
        Piece::Word(word) => Ok(Token::Word(number_of(words, word)?)),
        Piece::Number(n) => Ok(Token::Number(n)),
        Piece::Key(key) => Ok(Token::Key(key)),
    }
}

// The tokens of a text, or the first byte at which it is wrong.
pub fn lex<'a>(heap: Global, text: &'a str) -> Result<Lexed<'a>, LexError>
    ensures { Lexes text.now result }
{
    let mut tokens = Vec::new(heap);
    let mut starts = Vec::new(heap);
    let mut words = Vec::new(heap);
    let mut at = blanks_end(text.as_bytes(), 0);
    // From one token's end to the next, since where each begins is wanted.
    while at < text.len() {
        let (piece, end) = piece_at(text, at)?;
        tokens.push(token_of(piece, &mut words)?)?;
        starts.push(at)?;
        at = blanks_end(text.as_bytes(), end);
    }
    Ok(Lexed {
        tokens,
        starts,
        words,
    })
}
