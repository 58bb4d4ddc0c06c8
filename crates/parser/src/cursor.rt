// Single tokens.
ghost use Rattle.std.specs.Prelude.{◌≡◌, ◌+◌, ◌<◌, ◌≤◌, ◌↔◌, T, false, length, IfOk, IsTrue, OnOk, OnErr, OnSome, vec_len};
ghost use Rattle.parser.specs.Reading.{next, Skips};

use crate::parser::Parser;
use grammar::{Expected, ParseError};
use lexer::{Key, Token};

impl<'a> Parser<'a> {
    // The next token, if one is left.
    pub fn peek(&self) -> Option<Token>
        ensures is { result ≡ next self.now }
        ensures left { OnSome result (self.now.at < length self.now.tokens.now) }
    {
        self.tokens.get(self.at).copied()
    }

    // Past the next token.
    pub fn advance(&mut self)
        requires { self.old.at < length self.old.tokens.now }
        ensures on { Skips self.old self.new }
        ensures past { self.new.at ≡ self.old.at + 1 }
    {
        self.at += 1;
    }

    // Whether this key stands behind the next token.
    pub fn is_before(&self, key: Key) -> bool
        ensures { T result → self.now.at + 1 < length self.now.tokens.now }
    {
        self.at < self.tokens.len() && self.tokens.get(self.at + 1) == Some(&Token::Key(key))
    }

    // Goes past this key, if it is next.
    pub fn eat(&mut self, key: Key) -> bool
        ensures is { IsTrue result ↔ (next self.old ≡ Some (Token.Key key)) }
        ensures on { Skips self.old self.new }
        ensures past { T result → self.new.at ≡ self.old.at + 1 }
        ensures stays { result ≡ false → self.new.at ≡ self.old.at }
    {
        if self.peek() != Some(Token::Key(key)) {
            return false;
        }
        self.advance();
        true
    }

    // What should stand next and does not.
    pub fn missing(&self, what: Expected) -> ParseError
        ensures { result ≡ ParseError.Expected self.now.at what }
    {
        ParseError::Expected { at: self.at, what }
    }

    // Goes past this key, which must be next.
    pub fn expect(&mut self, key: Key, what: Expected) -> Result<(), ParseError>
        ensures is { OnOk result (next self.old ≡ Some (Token.Key key)) }
        ensures on { Skips self.old self.new }
        ensures past { OnOk result (self.new.at ≡ self.old.at + 1) }
        ensures stays { OnErr result (self.new.at ≡ self.old.at) }
    {
        if !self.eat(key) {
            return Err(self.missing(what));
        }
        Ok(())
    }

    // The number that must be next.
    pub fn number(&mut self) -> Result<u64, ParseError>
        ensures is { IfOk result (λ n. next self.old ≡ Some (Token.Number n)) }
        ensures on { Skips self.old self.new }
        ensures past { OnOk result (self.new.at ≡ self.old.at + 1) }
        ensures stays { OnErr result (self.new.at ≡ self.old.at) }
    {
        let Some(Token::Number(n)) = self.peek() else {
            return Err(self.missing(Expected::Number));
        };
        self.advance();
        Ok(n)
    }

    // The word that must be next; what is missing where none is.
    pub fn word(&mut self, what: Expected) -> Result<usize, ParseError>
        ensures is { IfOk result (λ w. next self.old ≡ Some (Token.Word w)) }
        ensures on { Skips self.old self.new }
        ensures past { OnOk result (self.new.at ≡ self.old.at + 1) }
        ensures stays { OnErr result (self.new.at ≡ self.old.at) }
    {
        let Some(Token::Word(word)) = self.peek() else {
            return Err(self.missing(what));
        };
        self.advance();
        Ok(word)
    }
}
