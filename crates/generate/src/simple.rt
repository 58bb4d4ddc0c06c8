// Random statements without others in them, written as bytes.
use crate::draft::Draft;
use crate::tags::{Statement, Term, Test};
use program::Operator;
use std::alloc::AllocError;

impl Draft {
    // The first byte of a statement that has no number.
    pub(crate) fn unnumbered(&mut self, statement: Statement) -> Result<(), AllocError> {
        self.write(&[statement as u8])
    }

    // The first byte of a statement and its number: they are numbered as they stand.
    pub(crate) fn numbered(&mut self, statement: Statement) -> Result<(), AllocError> {
        self.last = self.last.saturating_add(1);
        self.left = self.left.saturating_sub(1);
        self.write(&[statement as u8])?;
        self.word(self.last)
    }

    // The variable gets a number.
    pub(crate) fn set(&mut self, x: u8, n: u64) -> Result<(), AllocError> {
        self.numbered(Statement::Set)?;
        self.write(&[x])?;
        self.term(Term::Number(n))
    }

    // The variable goes on by an operation with a number.
    pub(crate) fn advance(&mut self, x: u8, operator: Operator, n: u64) -> Result<(), AllocError> {
        self.numbered(Statement::Set)?;
        self.write(&[x])?;
        self.term(Term::Operation(operator))?;
        self.term(Term::Variable(x))?;
        self.term(Term::Number(n))
    }

    fn assign(&mut self) -> Result<(), AllocError> {
        self.numbered(Statement::Set)?;
        let x = self.target();
        self.write(&[x])?;
        self.expression(2)
    }

    // The variable gets a number that comes in, of a random range.
    pub(crate) fn input(&mut self, x: u8) -> Result<(), AllocError> {
        let a = self.pick();
        let b = self.pick();
        self.ends.push(a)?;
        self.ends.push(b)?;
        self.numbered(Statement::Input)?;
        self.write(&[x])?;
        self.word(a.min(b))?;
        self.word(a.max(b))
    }

    fn store(&mut self) -> Result<(), AllocError> {
        let array = self.array();
        self.numbered(Statement::Store)?;
        self.write(&[array])?;
        self.index(array, 2)?;
        self.expression(2)
    }

    // A check that a variable is not a number, or any check.
    fn check(&mut self) -> Result<(), AllocError> {
        self.numbered(Statement::Check)?;
        if self.random.one_in(3) {
            return self.test(1);
        }
        let x = self.variable();
        let n = self.pick();
        self.tested(Test::Not)?;
        self.tested(Test::Equal)?;
        self.term(Term::Variable(x))?;
        self.term(Term::Number(n))
    }

    // A variable and another make the variable: their sum, or seldom their product.
    fn accumulate(&mut self) -> Result<(), AllocError> {
        let x = self.target();
        let y = self.variable();
        let operator = if self.random.one_in(6) {
            Operator::Product
        } else {
            Operator::Sum
        };
        self.numbered(Statement::Set)?;
        self.write(&[x])?;
        self.term(Term::Operation(operator))?;
        self.term(Term::Variable(x))?;
        self.term(Term::Variable(y))
    }

    // A statement without others in it.
    pub(crate) fn simple(&mut self) -> Result<(), AllocError> {
        match self.random.below(14) {
            0..=1 => {
                let x = self.target();
                self.input(x)
            }
            2..=5 if self.arrays > 0 => self.store(),
            6 => self.check(),
            7..=8 => self.accumulate(),
            _ => self.assign(),
        }
    }
}
