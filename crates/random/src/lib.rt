// Random numbers from a seed, and random inputs for programs: the same seed gives the same.

#![tactic(auto)]

mod inputs;
mod numbers;

pub use inputs::make_inputs;
pub use numbers::Random;
