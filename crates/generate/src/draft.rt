// A program that is being written: its bytes so far, and what its parts are drawn from.
use program::LIMIT;
use random::Random;
use std::alloc::{AllocError, Global};

#[derive(Drop)]
pub struct Draft {
    pub out: Vec<u8>,
    pub random: Random,
    // The ends of the inputs' ranges.
    pub ends: Vec<u64>,
    pub vars: u8,
    // The program has the first so many of four arrays; numbers are drawn from the lengths of all.
    pub arrays: u8,
    pub lengths: [u64; 4],
    // Numbers near which the program's numbers lie.
    pub near: [u64; 4],
    // One operation in so many is taken without care.
    pub care: u64,
    // The number of the last statement, and how many may follow.
    pub last: u64,
    pub left: u64,
}

impl Draft {
    pub fn new(heap: Global, random: Random) -> Draft {
        Draft {
            out: Vec::new(heap),
            random,
            ends: Vec::new(heap),
            vars: 3,
            arrays: 0,
            lengths: [1; 4],
            near: [0; 4],
            care: 1,
            last: 0,
            left: 0,
        }
    }

    pub fn write(&mut self, bytes: &[u8]) -> Result<(), AllocError> {
        self.out.extend_from_slice(bytes)
    }

    // A number in eight bytes, the highest first.
    pub fn word(&mut self, n: u64) -> Result<(), AllocError> {
        self.out.extend_from_slice(&n.to_be_bytes())
    }

    // A random number: near one of the program's, an array's length, or an end of what numbers can be.
    pub fn pick(&mut self) -> u64 {
        let near = self.near[self.random.below(4) as usize];
        let length = self.lengths[self.random.below(4) as usize];
        let small = self.random.below(12);
        match self.random.below(16) {
            0..=3 => near,
            4 => near.saturating_sub(1),
            5 => near.saturating_add(1).min(LIMIT - 1),
            6 => length,
            7 => length.saturating_sub(1),
            8 => 0,
            9 => 1,
            10 => LIMIT - 1 - small % 3,
            _ => small,
        }
    }

    // A random array.
    pub fn array(&mut self) -> u8 {
        self.random.below(u64::from(self.arrays)) as u8
    }

    // Its length.
    pub fn length(&self, array: u8) -> u64 {
        self.lengths[(array % 4) as usize]
    }

    // A random variable to be read,
    pub fn variable(&mut self) -> u8 {
        self.random.below(u64::from(self.vars)) as u8
    }

    // one that counts rounds,
    pub fn counter(&mut self) -> u8 {
        self.vars.saturating_sub(1 + self.random.below(2) as u8)
    }

    // and one to be changed: seldom one that counts.
    pub fn target(&mut self) -> u8 {
        if self.random.one_in(30) {
            return self.variable();
        }
        self.random.below(u64::from(self.vars.saturating_sub(2))) as u8
    }
}
