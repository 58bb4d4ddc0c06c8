// Widening of abstract states, and how the state of a loop goes on from round to round.

#![tactic(auto)]

mod rounds;

pub use rounds::{next_state, round_limit, widen_state};
