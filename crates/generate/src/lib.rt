// Makes random valid programs from random numbers.

#![tactic(auto)]

mod body;
mod draft;
mod expression;
mod simple;
mod statement;
mod tags;
mod whole;

pub use draft::Draft;
pub use whole::{Made, make_program};
