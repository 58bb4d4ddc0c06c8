// Runs an encoded program on numbers that come in, each loop for a bounded number of rounds.

#![tactic(auto)]

mod condition;
mod errors;
mod expression;
mod memory;
mod run;
mod skip;
mod start;
mod statement;
mod types;

pub use run::run_program;
pub use skip::{skip_expr, skip_exprs, skip_stmt, skip_test};
pub use types::{Outcome, RunError, State};
