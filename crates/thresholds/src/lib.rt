// A program's thresholds: collected from its bytes, sorted, and found by bisection.

#![tactic(auto)]

ghost use Rattle.thresholds.specs.Statements.{FewThresholds};

mod bisect;
mod table;
mod walk;
mod whole;

pub use bisect::{above, below, widen};
pub use whole::collect;

// A valid program has at most so many thresholds.
pub const THRESHOLDS: usize = 11000;

// That it has no more.
pub fn few_thresholds() -> u8
    ensures { FewThresholds }
{
    0
}
