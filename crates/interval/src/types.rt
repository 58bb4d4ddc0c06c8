// Intervals, faults and what an expression may come to. In a file of their own, since definitions of specs/ speak of them.
ghost use Rattle.std.specs.Prelude.{◌≡◌, ◌<◌, ◌≤◌, Some, None};

// All numbers from `lo` to `hi`, which are below 2^32.
#[derive(Clone, Copy, PartialEq, Eq, Debug)]
pub struct Interval {
    pub lo: u64,
    pub hi: u64,
    ghost ordered: { lo ≤ hi },
    ghost small: { hi < 4294967296 },
}

// The kinds of faults that may happen: a set of the four.
#[derive(Clone, Copy, PartialEq, Eq, Debug)]
pub struct Faults {
    pub overflow: bool,
    pub divisor: bool,
    pub index: bool,
    pub check: bool,
}

// What an expression may come to, with the faults that it may have; where there is no interval it always goes wrong, by one of these.
#[derive(Clone, Copy, PartialEq, Eq, Debug)]
pub struct EvalResult {
    pub interval: Option<Interval>,
    pub faults: Faults,
}

impl EvalResult {
    // It may come to a value.
    pub fn value(interval: Interval, faults: Faults) -> EvalResult
        ensures interval { result.interval ≡ Some interval }
        ensures faults { result.faults ≡ faults }
    {
        EvalResult {
            interval: Some(interval),
            faults,
        }
    }

    // It always goes wrong.
    pub fn never(faults: Faults) -> EvalResult
        ensures interval { result.interval ≡ None }
        ensures faults { result.faults ≡ faults }
    {
        EvalResult {
            interval: None,
            faults,
        }
    }
}
