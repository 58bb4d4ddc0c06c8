// The kinds of faults that may happen.
ghost use Rattle.std.specs.Prelude.{◌≡◌, [], ◌∷◌};
ghost use Rattle.program.specs.Kinds.{fault_number};
ghost use Rattle.interval.specs.Of.{Faulty, faults_or};

use crate::types::Faults;
use program::Fault;

impl Faults {
    // No fault. By name, since callers mean the empty set, and not a default.
    pub fn none() -> Faults
        ensures { Faulty result [] }
    {
        Faults {
            overflow: false,
            divisor: false,
            index: false,
            check: false,
        }
    }

    // This one alone.
    pub fn of(fault: Fault) -> Faults
        ensures { Faulty result (fault_number fault ∷ []) }
    {
        Faults {
            overflow: fault == Fault::Overflow,
            divisor: fault == Fault::Divisor,
            index: fault == Fault::Index,
            check: fault == Fault::Check,
        }
    }

    // The kinds of either.
    pub fn or(self, other: Faults) -> Faults
        ensures { result ≡ faults_or self other }
    {
        Faults {
            overflow: self.overflow | other.overflow,
            divisor: self.divisor | other.divisor,
            index: self.index | other.index,
            check: self.check | other.check,
        }
    }
}
