// Random inputs for a program: mostly ends of what it takes, and what lies just beside them.
use crate::numbers::Random;
use program::LIMIT;
use std::alloc::{AllocError, Global};

// One of the ends, or 0 if there are none.
fn end_of(random: &mut Random, ends: &[u64]) -> u64 {
    let i = random.below(ends.len() as u64) as usize;
    ends.get(i).copied().unwrap_or(0)
}

fn input(random: &mut Random, ends: &[u64]) -> u64 {
    let end = end_of(random, ends);
    match random.below(12) {
        0..=4 => end,
        5 => end.saturating_sub(1),
        6 => end.saturating_add(1),
        7 => 0,
        8 => LIMIT - 1,
        9 => random.below(end),
        10 => random.below(12),
        _ => random.below(LIMIT),
    }
}

// At most so many random inputs for a program whose inputs' ranges have these ends.
pub fn make_inputs(
    heap: Global,
    random: &mut Random,
    ends: &[u64],
    most: u64,
) -> Result<Vec<u64>, AllocError> {
    let count = random.below(most);
    (0..count).map(|_| input(random, ends)).collect(heap)
}
