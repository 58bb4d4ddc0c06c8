// One pass through a program: a statement's bytes, what is known, and the alarms.

#![tactic(auto)]

mod pass;
mod simple;
mod table;
mod types;

pub use pass::{analyse_at, settle_at};
pub use types::{Round, Task};
