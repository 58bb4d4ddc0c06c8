// A session with the machine: it holds the machine's memory, is told commands and gives back their answers.

#![tactic(auto)]

mod held;
mod rows;
mod run;

pub use held::Session;
pub use rows::Row;
pub use run::Answer;
