// What can go wrong in a statement.

ghost use Rattle.std.specs.Prelude.{◌≡◌};
ghost use Rattle.program.specs.Kinds.{fault_number};

/// The kinds of faults.
#[derive(Clone, Copy, PartialEq, Eq, Debug)]
pub enum Fault {
    /// A number below 0 or of 2^32 or more.
    Overflow,
    /// A quotient or a remainder by 0.
    Divisor,
    /// An element that is not there.
    Index,
    /// A check that fails.
    Check,
}

impl Fault {
    /// The number by which formats and answers name it.
    pub fn number(self) -> u64
        ensures { result ≡ fault_number self }
    {
        match self {
            Fault::Overflow => 1,
            Fault::Divisor => 2,
            Fault::Index => 3,
            Fault::Check => 4,
        }
    }
}
