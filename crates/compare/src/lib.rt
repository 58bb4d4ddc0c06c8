// Compares what the analyser tells of a program with what its runs do.

#![tactic(auto)]

mod examined;
mod missing;

pub use examined::examine;
pub use missing::{Missing, find_alarm, find_missing};
