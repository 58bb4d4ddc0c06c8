// What expressions and tests come to in an abstract state, worked out over their bytes.

#![tactic(auto)]

mod comparison;
mod expression;
mod test;
mod types;

pub use bytes_at::{byte_at, word_at};
pub use expression::{eval_here, length_at};
pub use test::test_at;
pub use types::{Code, Evaluated, Ways};
