// Terms and tests: operators by levels, each over the operands of the level below.
ghost use Rattle.std.specs.Prelude.{◌≡◌, ◌+◌, ◌<◌, ◌≤◌, length, vec_len};
ghost use Rattle.parser.specs.Reading.{ReadsExpr};

use crate::operator::made_by;
use crate::parser::Parser;
use crate::write::push_number;
use grammar::{Expected, Kind, Operator, ParseError};
use lexer::{Key, Token};

// The levels of comparisons and disjunctions.
const COMPARISON: usize = 3;

const DISJUNCTION: usize = 5;

// What begins at a place must be of this kind.
fn must_be(read: Kind, kind: Kind, at: usize) -> Result<(), ParseError> {
    if read == kind {
        return Ok(());
    }
    let what = match kind {
        Kind::Term => Expected::Term,
        Kind::Test => Expected::Test,
    };
    Err(ParseError::Expected { at, what })
}

impl<'a> Parser<'a> {
    // A number or a variable.
    fn simple(&mut self) -> Result<Kind, ParseError>
        ensures { ReadsExpr self.old self.new }
    {
        match self.peek() {
            Some(Token::Number(n)) => {
                self.advance();
                self.program.push(0)?;
                push_number(&mut self.program, n)?;
            }
            Some(Token::Word(word)) => {
                let Some(x) = self.variable(word) else {
                    return Err(ParseError::Undeclared(self.at));
                };
                self.advance();
                self.program.extend_from_slice(&[1, x])?;
            }
            _ => return Err(self.missing(Expected::Term)),
        }
        Ok(Kind::Term)
    }

    // An element of an array, whose word is next and is followed by its index.
    #[cycle(expression)]
    fn element(&mut self, left: usize) -> Result<Kind, ParseError>
        requires { self.old.at + 1 < length self.old.tokens.now }
        ensures { ReadsExpr self.old self.new }
    {
        let place = self.at;
        let word = self.word(Expected::Term)?;
        let Some(r) = self.array(word) else {
            return Err(ParseError::Undeclared(place));
        };
        self.advance();
        self.program.extend_from_slice(&[3, r])?;
        let at = self.at;
        let index = self.operators(DISJUNCTION, left)?;
        must_be(index, Kind::Term, at)?;
        self.expect(Key::CloseIndex, Expected::CloseIndex)?;
        Ok(Kind::Term)
    }

    // What operators join: a number, a variable, an element, a negation, or anything in parentheses.
    #[cycle(expression)]
    fn operand(&mut self, left: usize) -> Result<Kind, ParseError>
        ensures { ReadsExpr self.old self.new }
    {
        if left == 0 {
            return Err(ParseError::TooDeep(self.at));
        }
        let below = left - 1;
        if self.eat(Key::Open) {
            let kind = self.operators(DISJUNCTION, below)?;
            self.expect(Key::Close, Expected::Close)?;
            return Ok(kind);
        }
        if self.eat(Key::Not) {
            self.program.push(2)?;
            let at = self.at;
            let kind = self.operators(COMPARISON, below)?;
            must_be(kind, Kind::Test, at)?;
            return Ok(Kind::Test);
        }
        if self.is_before(Key::OpenIndex) {
            return self.element(below);
        }
        self.simple()
    }

    // The right operand of an operator, and then the operator before the left one, which stands from `start` on.
    #[cycle(expression)]
    fn join(
        &mut self,
        operator: Operator,
        kind: Kind,
        start: usize,
        level: usize,
        left: usize,
    ) -> Result<Kind, ParseError>
        requires { (start ≤ vec_len self.old.program) × (0 < level) }
        ensures { ReadsExpr self.old self.new }
    {
        let at = self.at;
        let right = self.operators(level - 1, left)?;
        must_be(right, kind, at)?;
        self.write_operator(start, operator)?;
        Ok(made_by(operator))
    }

    // Operators of a level, grouped to the left, and their operands.
    #[cycle(expression)]
    fn operators(&mut self, level: usize, left: usize) -> Result<Kind, ParseError>
        ensures { ReadsExpr self.old self.new }
    {
        if level == 0 {
            return self.operand(left);
        }
        let start = self.program.len();
        let mut kind = self.operators(level - 1, left)?;
        while let Some(operator) = self.operator(level, kind) {
            kind = self.join(operator, kind, start, level, left)?;
        }
        Ok(kind)
    }

    // A term or a test.
    pub fn expression(&mut self, kind: Kind, left: usize) -> Result<(), ParseError>
        ensures { ReadsExpr self.old self.new }
    {
        let at = self.at;
        let read = self.operators(DISJUNCTION, left)?;
        must_be(read, kind, at)
    }
}
