// The machine's memory: where things stand in it, what an analysis found stored in it, and rows shown from it.

#![tactic(auto)]

mod bytes;
mod layout;
mod results;
mod show;
mod types;

pub use layout::{CURSOR, ROW, SCRATCH, SLOTS, WORDS};
pub use results::store;
pub use show::{show_end, show_from};
pub use types::Told;
