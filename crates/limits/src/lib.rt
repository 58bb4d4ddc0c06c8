// Finds the limit that an encoded program passes, and the statement.

#![tactic(auto)]

mod heads;
mod skip;
mod walk;

pub use walk::{Limit, Passed, find_limit};
