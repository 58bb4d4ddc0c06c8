// A random program, written as bytes.
use crate::draft::Draft;
use crate::tags::Statement;
use program::{LIMIT, LOAD};
use random::Random;
use std::alloc::AllocError;

// One of the numbers near which a program's numbers lie.
fn landmark(random: &mut Random) -> u64 {
    match random.below(10) {
        0..=3 => random.below(10),
        4..=6 => random.below(120),
        7 => 1 << (random.below(32) as u32),
        8 => random.below(LIMIT),
        _ => LIMIT - 1 - random.below(20),
    }
}

impl Draft {
    // What the program's parts are drawn from.
    fn prepare(&mut self) {
        self.vars = (4 + self.random.below(4)) as u8;
        self.arrays = self.random.below(4) as u8;
        self.left = 3 + self.random.below(38);
        self.care = 1 + self.random.below(6);
        for (length, near) in self.lengths.iter_mut().zip(self.near.iter_mut()) {
            *length = 1 + self.random.below(10);
            *near = landmark(&mut self.random);
        }
    }

    // The first byte of the command that loads the program, how many variables there are, and how long the arrays are.
    fn header(&mut self) -> Result<(), AllocError> {
        let arrays = self.arrays;
        let lengths = self.lengths;
        self.write(&[LOAD, self.vars])?;
        self.word(u64::from(arrays))?;
        for length in lengths.iter().take(usize::from(arrays)) {
            self.word(*length)?;
        }
        Ok(())
    }

    // Some variables come in first, and then there are blocks of statements.
    fn body(&mut self) -> Result<(), AllocError> {
        self.unnumbered(Statement::Pair)?;
        self.unnumbered(Statement::Pair)?;
        self.input(0)?;
        self.input(1)?;
        let parts = self.random.below(8);
        for _ in 0..parts {
            self.unnumbered(Statement::Pair)?;
            self.block(4, 2)?;
        }
        self.block(4, 2)
    }

    // Writes a random program, as the command that loads it.
    pub(crate) fn program(&mut self) -> Result<(), AllocError> {
        self.prepare();
        self.header()?;
        self.body()
    }
}
