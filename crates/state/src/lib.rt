// Abstract states by value, and what expressions and tests come to in them.

#![tactic(auto)]

mod abstraction;
mod env;
mod lists;
mod types;

pub use types::{Abstract, Env};
