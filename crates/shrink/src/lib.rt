// Makes a valid program simpler in one place: to show what goes wrong by a small one.

#![tactic(auto)]

mod edit;
mod walk;
mod way;

pub use edit::{place_count, simpler, with_number};
pub use way::Way;
