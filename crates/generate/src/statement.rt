// Random statements, written as bytes and numbered as they stand.
use crate::draft::Draft;
use crate::tags::{Statement, Term, Test};
use program::Operator;
use std::alloc::AllocError;

// Which way a loop counts.
#[derive(Clone, Copy, PartialEq, Eq)]
enum Direction {
    Up,
    Down,
}

// How a loop counts: which variable, from where, up to a bound or down, by what.
#[derive(Clone, Copy)]
struct Count {
    counter: u8,
    start: u64,
    bound: u64,
    direction: Direction,
    step: u64,
}

impl Draft {
    // The variable that counts the rounds of a loop in which so many loops may stand.
    fn counter_of(&self, loops: u8) -> u8 {
        self.vars.saturating_sub(if loops > 0 { 1 } else { 2 })
    }

    // How many rounds a loop has: mostly few, or an array's length.
    fn bound(&mut self) -> u64 {
        match self.random.below(8) {
            0 => self.pick(),
            1..=3 if self.arrays > 0 => {
                let array = self.array();
                self.length(array)
            }
            _ => self.random.below(12),
        }
    }

    fn count(&mut self, loops: u8) -> Count {
        let counter = self.counter_of(loops);
        let bound = self.bound();
        let direction = if self.random.one_in(4) {
            Direction::Down
        } else {
            Direction::Up
        };
        let start = if direction == Direction::Up && !self.random.one_in(6) {
            0
        } else {
            bound
        };
        let step = if self.random.one_in(6) { 2 } else { 1 };
        Count {
            counter,
            start,
            bound,
            direction,
            step,
        }
    }

    // The test of a loop: whether the counter is below a bound, or above a number.
    fn count_test(&mut self, count: &Count) -> Result<(), AllocError> {
        self.tested(Test::Less)?;
        match count.direction {
            Direction::Down => {
                self.term(Term::Number(count.step.saturating_sub(1)))?;
                self.term(Term::Variable(count.counter))
            }
            Direction::Up => {
                self.term(Term::Variable(count.counter))?;
                if self.random.one_in(6) {
                    return self.expression(1);
                }
                self.term(Term::Number(count.bound))
            }
        }
    }

    // A variable goes down if it can.
    fn guarded(&mut self) -> Result<(), AllocError> {
        let x = self.target();
        let n = self.random.below(5);
        self.numbered(Statement::Branch)?;
        self.tested(Test::Less)?;
        self.term(Term::Number(n))?;
        self.term(Term::Variable(x))?;
        self.advance(x, Operator::Difference, n)?;
        self.unnumbered(Statement::Nothing)
    }

    // A loop that counts up to a bound, or down from a number.
    #[cycle(statements)]
    fn counted(&mut self, depth: u32, loops: u8) -> Result<(), AllocError> {
        let count = self.count(loops);
        self.unnumbered(Statement::Pair)?;
        self.set(count.counter, count.start)?;
        self.numbered(Statement::Loop)?;
        self.count_test(&count)?;
        self.unnumbered(Statement::Pair)?;
        self.block(depth, loops)?;
        let operator = match count.direction {
            Direction::Up => Operator::Sum,
            Direction::Down => Operator::Difference,
        };
        self.advance(count.counter, operator, count.step)
    }

    // A statement with at most so many choices and loops around each other in it.
    #[cycle(statements)]
    fn statement(&mut self, depth: u32, loops: u8) -> Result<(), AllocError> {
        if self.left == 0 {
            return self.unnumbered(Statement::Nothing);
        }
        if depth == 0 {
            return self.simple();
        }
        match self.random.below(16) {
            0..=1 => {
                self.numbered(Statement::Branch)?;
                self.test(2)?;
                self.block(depth - 1, loops)?;
                self.block(depth - 1, loops)
            }
            2..=4 if loops > 0 => self.counted(depth - 1, loops - 1),
            5 if loops > 0 => {
                self.numbered(Statement::Loop)?;
                self.test(1)?;
                self.block(depth - 1, loops - 1)
            }
            6 => self.guarded(),
            7 => self.unnumbered(Statement::Nothing),
            _ => self.simple(),
        }
    }

    // Some statements, one after another.
    #[cycle(statements)]
    pub(crate) fn block(&mut self, depth: u32, loops: u8) -> Result<(), AllocError> {
        let more = self.random.below(4);
        for _ in 0..more {
            self.unnumbered(Statement::Pair)?;
            self.statement(depth, loops)?;
        }
        self.statement(depth, loops)
    }
}
