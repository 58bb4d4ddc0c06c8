// The order of intervals: joining, comparing, cutting, widening.
ghost use Rattle.std.specs.Prelude.{◌≡◌};
ghost use Rattle.interval.specs.Interval.{interval, join_interval, within_interval, meet};
ghost use Rattle.interval.specs.Of.{as_interval, Made, Nonempty, widen_to};

use crate::types::Interval;
use program::LIMIT;

impl Interval {
    // From `lo` to `hi`, if these are bounds of an interval.
    pub fn new(lo: u64, hi: u64) -> Option<Interval>
        ensures { Made result lo hi }
    {
        if lo <= hi && hi < LIMIT {
            return Some(Interval { lo, hi });
        }
        None
    }

    // The number 0 alone.
    pub fn zero() -> Interval
        ensures { as_interval result ≡ interval 0 0 }
    {
        Interval { lo: 0, hi: 0 }
    }

    // The least interval that holds both.
    pub fn join(self, other: Interval) -> Interval
        ensures { as_interval result ≡ join_interval (as_interval self) (as_interval other) }
    {
        Interval {
            lo: self.lo.min(other.lo),
            hi: self.hi.max(other.hi),
        }
    }

    // Whether all that lies in this one lies in the other.
    pub fn within(self, other: Interval) -> bool
        ensures { result ≡ within_interval (as_interval self) (as_interval other) }
    {
        other.lo <= self.lo && self.hi <= other.hi
    }

    // What lies from `low` to `high`, if anything.
    pub fn cut(self, low: u64, high: u64) -> Option<Interval>
        ensures { Nonempty result (meet (as_interval self) (interval low high)) }
    {
        Interval::new(self.lo.max(low), self.hi.min(high))
    }

    // A bound that `other` passes goes on to `below` or `above`, or to that of `other` if that lies further.
    pub fn widen_to(self, other: Interval, below: u64, above: u64) -> Interval
        ensures { as_interval result ≡ widen_to (as_interval self) (as_interval other) below above }
    {
        let lo = if other.lo < self.lo {
            below.min(other.lo)
        } else {
            self.lo
        };
        let hi = if self.hi < other.hi {
            above.max(other.hi).min(LIMIT - 1)
        } else {
            self.hi
        };
        Interval { lo, hi }
    }
}
