// Where things stand in the memory.
// The number of variables.
pub const VARS: usize = 0;
// Not 0 if no run comes to an end.
pub const NO_END: usize = 1;
// The slot from which the next alarm is looked for.
pub const CURSOR: usize = 2;
// The first word of the intervals at the end: 64 of variables, 16 of arrays, two words each.
pub const ENDS: usize = 3;
// The first word of the alarm table, and how many slots it has.
pub const TABLE: usize = 163;

pub const SLOTS: usize = 10920;
// The first word of the scratch, which is 0 whenever a step has ended.
pub const SCRATCH: usize = 11083;
// How many words there are.
pub const WORDS: usize = 22083;
// A row has at most so many bytes.
pub const ROW: usize = 16;
