// A program's text, read and encoded; or why it is no program, and where.

#![tactic(auto)]

mod errors;
mod reason;
mod sizes;
mod tables;
mod whole;

pub use errors::SourceError;
pub use reason::Reason;
pub use whole::{Source, read_source};
