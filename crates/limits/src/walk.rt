// Finds the first statement of an encoded program that passes a limit.
ghost use Rattle.std.specs.Prelude.{◌≡◌, ◌≢◌, ◌<◌, ◌≤◌, Some, None, IfSome, IfErr, length};
ghost use Rattle.limits.specs.declared.walk.Limit.TheVariants.{LongProgram};

use crate::heads::{Head, Opens, head_at};
use arrayvec::ArrayVec;
use program::{ARRAYS, BYTES, LOOPS, NESTING, TESTS};
use scanner::read_number;

const DEPTH: usize = NESTING as usize;

// Choices and loops more than 32 deep, loops alone more than 3, a test of more than 63 tests, a program of more than 32,768 bytes.
#[derive(Clone, Copy, PartialEq, Eq, Debug)]
pub enum Limit {
    Nesting,
    Loops,
    LongTest,
    LongProgram,
}

// A limit, if one is found, and the number of the statement that passes it, if there is one.
#[derive(Clone, Copy)]
pub struct Passed {
    pub label: Option<u64>,
    pub limit: Option<Limit>,
}

// A choice or a loop: how many of its statements are still to come.
#[derive(Clone, Copy, Default)]
struct Level {
    left: usize,
    is_loop: bool,
}

// The choices and loops in which the walk stands, from the outermost on. They need no heap: to find a limit cannot fail.
#[derive(Drop)]
struct Nest {
    levels: ArrayVec<Level, DEPTH>,
}

impl Nest {
    // Leaves what has no statement left.
    fn close(&mut self) {
        while self
            .levels
            .as_slice()
            .last()
            .is_some_and(|level| level.left == 0)
        {
            self.levels.pop();
        }
    }

    // How many of the levels are loops.
    fn loops(&self) -> u64 {
        self.levels
            .as_slice()
            .iter()
            .filter(|level| level.is_loop)
            .count() as u64
    }

    // Goes into a choice or a loop.
    fn open(&mut self, level: Level) -> Result<(), Limit>
        ensures { IfErr result (λ e. e ≢ LongProgram) }
    {
        if self.levels.len() >= DEPTH {
            return Err(Limit::Nesting);
        }
        if level.is_loop && self.loops() >= LOOPS {
            return Err(Limit::Loops);
        }
        self.levels.push(level);
        Ok(())
    }

    // One statement is read.
    fn take(&mut self, head: &Head) -> Result<(), Limit>
        ensures { IfErr result (λ e. e ≢ LongProgram) }
    {
        if head.tests > TESTS {
            return Err(Limit::LongTest);
        }
        self.close();
        if let Some(level) = self.levels.as_mut_slice().last_mut() {
            level.left = match head.opens {
                Opens::Pair => level.left.saturating_add(1),
                _ => level.left.saturating_sub(1),
            };
        }
        match head.opens {
            Opens::Nothing | Opens::Pair => Ok(()),
            Opens::Branch => self.open(Level {
                left: 2,
                is_loop: false,
            }),
            Opens::Loop => self.open(Level {
                left: 1,
                is_loop: true,
            }),
        }
    }
}

// The program's statement; nothing if there are too many arrays.
fn body_of(code: &[u8]) -> &[u8]
    ensures { length result.now ≤ length code.now }
{
    match read_number(code, 1) {
        Some(arrays) if arrays <= ARRAYS => code.get(9 + 8 * arrays as usize..).unwrap_or(&[]),
        _ => &[],
    }
}

// The first statement that passes a limit, in a program without the command's first byte.
pub fn find_limit(code: &[u8]) -> Passed
    ensures long { result.limit ≡ Some LongProgram → 32768 < length code.now }
    ensures none { result.limit ≡ None → length code.now ≤ 32768 }
    ensures label { IfSome result.label (λ n. 1 ≤ n) }
{
    let mut nest = Nest {
        levels: ArrayVec::new(),
    };
    let mut label = None;
    let mut rest = body_of(code);
    while let Some(head) = head_at(rest) {
        label = head.label.or(label);
        if code.len() - rest.len() >= BYTES {
            return Passed {
                label,
                limit: Some(Limit::LongProgram),
            };
        }
        if let Err(limit) = nest.take(&head) {
            return Passed {
                label,
                limit: Some(limit),
            };
        }
        rest = head.rest;
    }
    Passed {
        label,
        limit: (code.len() > BYTES).then_some(Limit::LongProgram),
    }
}
