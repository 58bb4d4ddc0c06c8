// What is known where a statement begins, found by a pass that looks out for it.

#![tactic(auto)]

mod pass;
mod types;

pub use pass::watch_at;
pub use types::Watch;
