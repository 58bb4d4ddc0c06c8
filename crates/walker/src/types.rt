// What a pass is given, and what a loop comes to.
ghost use Rattle.std.specs.Prelude.{◌≡◌};

use evaluate::Code;
use state::Abstract;

// What stays the same throughout a pass.
#[derive(Clone, Copy)]
pub struct Task<'a> {
    // The command's bytes.
    pub text: &'a [u8],
    // How many elements each array has.
    pub lengths: &'a [u64],
    // The thresholds, in ascending order.
    pub thresholds: &'a [u64],
    // The most rounds of a loop.
    pub rounds: usize,
}

impl<'a> Task<'a> {
    // What its expressions are worked out over.
    pub fn code(&self) -> Code<'a>
        ensures text { result.text ≡ self.now.text }
        ensures lengths { result.lengths ≡ self.now.lengths }
    {
        Code {
            text: self.text,
            lengths: self.lengths,
        }
    }
}

// What a loop's rounds come to, and where its body ends.
#[derive(Clone, Copy)]
pub struct Round {
    pub state: Abstract,
    pub end: usize,
}
