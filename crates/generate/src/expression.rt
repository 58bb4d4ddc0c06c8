// Random expressions and tests, written as bytes.
use crate::draft::Draft;
use crate::tags::{Term, Test};
use program::Operator;
use std::alloc::AllocError;

impl Draft {
    // The first bytes of an expression; those of a number and of a variable are all of it.
    pub(crate) fn term(&mut self, term: Term) -> Result<(), AllocError> {
        match term {
            Term::Number(n) => {
                self.write(&[0])?;
                self.word(n)
            }
            Term::Variable(x) => self.write(&[1, x]),
            Term::Operation(operator) => self.write(&[2, operator.code()]),
            Term::Element(array) => self.write(&[3, array]),
        }
    }

    // A number.
    pub fn number(&mut self, n: u64) -> Result<(), AllocError> {
        self.term(Term::Number(n))
    }

    // The first byte of a test.
    pub(crate) fn tested(&mut self, test: Test) -> Result<(), AllocError> {
        self.write(&[test as u8])
    }

    // A variable or a number.
    fn leaf(&mut self) -> Result<(), AllocError> {
        let leaf = if self.random.one_in(2) {
            Term::Number(self.pick())
        } else {
            Term::Variable(self.variable())
        };
        self.term(leaf)
    }

    // A random operator, mostly of a sum or a difference.
    fn operator(&mut self) -> Operator {
        match self.random.below(10) {
            0..=3 => Operator::Sum,
            4..=6 => Operator::Difference,
            7 => Operator::Product,
            8 => Operator::Quotient,
            _ => Operator::Remainder,
        }
    }

    // An operation with a number that seldom goes wrong: a sum, a quotient, a remainder, a product.
    #[cycle(expressions)]
    fn tame(&mut self, depth: u32) -> Result<(), AllocError> {
        let n = 1 + self.random.below(10);
        let operator = match self.random.below(8) {
            0..=3 => Operator::Sum,
            4 => Operator::Quotient,
            5 | 6 => Operator::Remainder,
            _ => Operator::Product,
        };
        self.term(Term::Operation(operator))?;
        self.expression(depth)?;
        self.term(Term::Number(n))
    }

    // An index of the array, mostly one that it has.
    #[cycle(expressions)]
    pub fn index(&mut self, array: u8, depth: u32) -> Result<(), AllocError> {
        let length = self.length(array);
        let within = self.random.below(length);
        let counter = self.counter();
        match self.random.below(8) {
            0..=2 => self.term(Term::Number(within)),
            3..=4 => self.term(Term::Variable(counter)),
            5..=6 if depth > 0 => {
                self.term(Term::Operation(Operator::Remainder))?;
                self.expression(depth - 1)?;
                self.term(Term::Number(length))
            }
            7 if depth > 0 && self.random.one_in(self.care) => self.expression(depth - 1),
            _ => self.term(Term::Number(length.saturating_sub(1))),
        }
    }

    // An expression of at most so many levels below the first.
    #[cycle(expressions)]
    pub fn expression(&mut self, depth: u32) -> Result<(), AllocError> {
        if depth == 0 {
            return self.leaf();
        }
        match self.random.below(10) {
            0..=4 => self.leaf(),
            5..=6 if self.arrays > 0 => {
                let array = self.array();
                self.term(Term::Element(array))?;
                self.index(array, depth - 1)
            }
            7 if self.random.one_in(self.care) => {
                let operator = self.operator();
                self.term(Term::Operation(operator))?;
                self.expression(depth - 1)?;
                self.expression(depth - 1)
            }
            _ => self.tame(depth - 1),
        }
    }

    // A comparison, mostly of a variable.
    fn comparison(&mut self, depth: u32) -> Result<(), AllocError> {
        let test = if self.random.one_in(4) {
            Test::Equal
        } else {
            Test::Less
        };
        self.tested(test)?;
        if self.random.one_in(3) {
            self.expression(depth)?;
            return self.leaf();
        }
        let x = self.variable();
        self.term(Term::Variable(x))?;
        self.expression(depth)
    }

    // A test of at most so many levels below the first.
    pub fn test(&mut self, depth: u32) -> Result<(), AllocError> {
        if depth == 0 {
            return self.comparison(0);
        }
        let test = match self.random.below(3) {
            0 => Test::Not,
            1 => Test::And,
            _ => Test::Or,
        };
        if !self.random.one_in(3) {
            return self.comparison(depth);
        }
        self.tested(test)?;
        self.test(depth - 1)?;
        match test {
            Test::And | Test::Or => self.test(depth - 1),
            _ => Ok(()),
        }
    }
}
