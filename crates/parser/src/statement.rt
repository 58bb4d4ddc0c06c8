// Statements and lists of them.
ghost use Rattle.std.specs.Prelude.{◌≡◌, ◌+◌, ◌<◌, ◌≤◌, length, vec_len};
ghost use Rattle.parser.specs.Reading.{ReadsOn};

use crate::parser::Parser;
use crate::write::push_number;
use grammar::{Expected, Kind, ParseError};
use lexer::{Key, Token};

impl<'a> Parser<'a> {
    // Whether a list of statements ends here.
    fn ends_list(&self) -> bool {
        matches!(
            self.peek(),
            None | Some(Token::Key(Key::End | Key::Else | Key::Close))
        )
    }

    // `word is term`, behind `is`; the word stands at a place.
    fn assign(&mut self, place: usize, x: u8, left: usize) -> Result<(), ParseError>
        ensures { ReadsOn self.old self.new }
    {
        self.write_head(1, place)?;
        self.program.push(x)?;
        self.expression(Kind::Term, left)
    }

    // `word takes number to number`, behind `takes`.
    fn input(&mut self, place: usize, x: u8) -> Result<(), ParseError>
        ensures { ReadsOn self.old self.new }
    {
        let low = self.number()?;
        self.expect(Key::To, Expected::To)?;
        let upper = self.at;
        let high = self.number()?;
        if high < low {
            return Err(ParseError::Range(upper));
        }
        self.write_head(3, place)?;
        self.program.push(x)?;
        push_number(&mut self.program, low)?;
        push_number(&mut self.program, high)?;
        Ok(())
    }

    // `word [ term ] is term`, behind the opening bracket.
    fn store(&mut self, place: usize, word: usize, left: usize) -> Result<(), ParseError>
        ensures { ReadsOn self.old self.new }
    {
        let Some(r) = self.array(word) else {
            return Err(ParseError::Undeclared(place));
        };
        self.write_head(2, place)?;
        self.program.push(r)?;
        self.expression(Kind::Term, left)?;
        self.expect(Key::CloseIndex, Expected::CloseIndex)?;
        self.expect(Key::Is, Expected::Is)?;
        self.expression(Kind::Term, left)
    }

    // A statement that begins with a word.
    fn word_statement(&mut self, word: usize, left: usize) -> Result<(), ParseError>
        requires { self.old.at < length self.old.tokens.now }
        ensures { ReadsOn self.old self.new }
    {
        let place = self.at;
        self.advance();
        if self.eat(Key::OpenIndex) {
            return self.store(place, word, left);
        }
        let Some(x) = self.variable(word) else {
            return Err(ParseError::Undeclared(place));
        };
        if self.eat(Key::Is) {
            return self.assign(place, x, left);
        }
        if self.eat(Key::Takes) {
            return self.input(place, x);
        }
        Err(self.missing(Expected::IsOrTakes))
    }

    // `nothing`.
    fn nothing(&mut self) -> Result<(), ParseError>
        requires { self.old.at < length self.old.tokens.now }
        ensures { ReadsOn self.old self.new }
    {
        self.advance();
        self.program.push(0)?;
        Ok(())
    }

    // `check test`.
    fn check(&mut self, left: usize) -> Result<(), ParseError>
        requires { self.old.at < length self.old.tokens.now }
        ensures { ReadsOn self.old self.new }
    {
        let place = self.at;
        self.advance();
        self.write_head(4, place)?;
        self.expression(Kind::Test, left)
    }

    // `if test then statements else statements end`; `else` and its statements may be left out.
    #[cycle(statement)]
    fn branch(&mut self, left: usize) -> Result<(), ParseError>
        requires { self.old.at < length self.old.tokens.now }
        ensures { ReadsOn self.old self.new }
    {
        let place = self.at;
        self.advance();
        self.write_head(6, place)?;
        self.expression(Kind::Test, left)?;
        self.expect(Key::Then, Expected::Then)?;
        self.list(left)?;
        if self.eat(Key::Else) {
            self.list(left)?;
        } else {
            self.program.push(0)?;
        }
        self.expect(Key::End, Expected::End)
    }

    // `while test do statements end`.
    #[cycle(statement)]
    fn repeat(&mut self, left: usize) -> Result<(), ParseError>
        requires { self.old.at < length self.old.tokens.now }
        ensures { ReadsOn self.old self.new }
    {
        let place = self.at;
        self.advance();
        self.write_head(7, place)?;
        self.expression(Kind::Test, left)?;
        self.expect(Key::Do, Expected::Do)?;
        self.list(left)?;
        self.expect(Key::End, Expected::End)
    }

    // Statements in parentheses.
    #[cycle(statement)]
    fn group(&mut self, left: usize) -> Result<(), ParseError>
        requires { self.old.at < length self.old.tokens.now }
        ensures { ReadsOn self.old self.new }
    {
        self.advance();
        self.list(left)?;
        self.expect(Key::Close, Expected::Close)
    }

    // One statement.
    #[cycle(statement)]
    fn statement(&mut self, left: usize) -> Result<(), ParseError>
        ensures { ReadsOn self.old self.new }
    {
        let Some(token) = self.peek() else {
            return Err(self.missing(Expected::Statement));
        };
        if left == 0 {
            return Err(ParseError::TooDeep(self.at));
        }
        let below = left - 1;
        match token {
            Token::Key(Key::Nothing) => self.nothing(),
            Token::Key(Key::Check) => self.check(below),
            Token::Key(Key::If) => self.branch(below),
            Token::Key(Key::While) => self.repeat(below),
            Token::Key(Key::Open) => self.group(below),
            Token::Word(word) => self.word_statement(word, below),
            _ => Err(self.missing(Expected::Statement)),
        }
    }

    // Statements between semicolons, each the first of a sequence with those behind it.
    #[cycle(statement)]
    pub fn list(&mut self, left: usize) -> Result<(), ParseError>
        ensures { ReadsOn self.old self.new }
    {
        loop {
            let start = self.program.len();
            self.statement(left)?;
            if !self.eat(Key::Semicolon) || self.ends_list() {
                return Ok(());
            }
            self.program.insert(start, 5)?;
        }
    }
}
