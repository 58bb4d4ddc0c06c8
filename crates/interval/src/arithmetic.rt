// The arithmetic of intervals, with the faults that it may have.
ghost use Rattle.std.specs.Prelude.{◌≡◌, ℕ, ◌<◌, ◌≤◌, [], ◌∷◌, if◌then◌else◌, nat_eq};
ghost use Rattle.program.specs.Kinds.{operator_code, operator_of, fault_number};
ghost use Rattle.interval.specs.Interval.{Interval as PlainInterval};
ghost use Rattle.interval.specs.Arithmetic.{capped, quotient, remainder, divided, interval_op, element_of};
ghost use Rattle.interval.specs.Of.{as_interval, Faulty, Says};

use crate::types::{EvalResult, Faults, Interval};
use program::{Fault, LIMIT, Operator};

// The fault, if it can happen.
fn faults_if(there: bool, fault: Fault) -> Faults
    ensures { Faulty result (if there then fault_number fault ∷ [] else []) }
{
    if there {
        Faults::of(fault)
    } else {
        Faults::none()
    }
}

// From `lo` to `hi` as far as these are numbers; what lies above is an overflow.
fn capped(lo: u64, hi: u64) -> EvalResult
    requires { lo ≤ hi }
    ensures { Says result (capped lo hi) }
{
    if lo >= LIMIT {
        return EvalResult::never(Faults::of(Fault::Overflow));
    }
    let all = Interval {
        lo,
        hi: hi.min(LIMIT - 1),
    };
    EvalResult::value(all, faults_if(hi >= LIMIT, Fault::Overflow))
}

// Quotients by what lies from `least` to `most`.
fn quotient(a: Interval, least: u64, most: u64) -> Interval
    requires { (0 < least) × (least ≤ most) }
    ensures { as_interval result ≡ quotient (as_interval a) least most }
{
    Interval {
        lo: a.lo / most,
        hi: a.hi / least,
    }
}

// Remainders by what lies from `least` to `most`.
fn remainder(a: Interval, least: u64, most: u64) -> Interval
    requires { (0 < least) × (least ≤ most) }
    ensures { as_interval result ≡ remainder (as_interval a) least most }
{
    if a.hi < least {
        return a;
    }
    Interval {
        lo: 0,
        hi: a.hi.min(most - 1),
    }
}

// What `by` makes of `a` and the part of `b` that is not 0.
fn divided<F: FnOnce(Interval, u64, u64) -> Interval>(by: F, a: Interval, b: Interval) -> EvalResult
    requires { (least most : ℕ) → 0 < least → least ≤ most → most < 4294967296 → F.pre by a least most }
    ensures { (f : PlainInterval → ℕ → ℕ → PlainInterval) →
        ((least most : ℕ) (r : Interval) → F.post by a least most r → as_interval r ≡ f (as_interval a) least most) →
        Says result (divided f (as_interval a) (as_interval b)) }
{
    if b.hi == 0 {
        return EvalResult::never(Faults::of(Fault::Divisor));
    }
    EvalResult::value(
        by(a, b.lo.max(1), b.hi),
        faults_if(b.lo == 0, Fault::Divisor),
    )
}

impl Interval {
    // A number of the program, which may be too large.
    pub fn number(n: u64) -> EvalResult
        ensures { Says result (capped n n) }
    {
        capped(n, n)
    }

    pub fn add(self, other: Interval) -> EvalResult
        ensures { Says result (interval_op 0 (as_interval self) (as_interval other)) }
    {
        capped(self.lo + other.lo, self.hi + other.hi)
    }

    pub fn sub(self, other: Interval) -> EvalResult
        ensures { Says result (interval_op 1 (as_interval self) (as_interval other)) }
    {
        if self.hi < other.lo {
            return EvalResult::never(Faults::of(Fault::Overflow));
        }
        let all = Interval {
            lo: self.lo.saturating_sub(other.hi),
            hi: self.hi - other.lo,
        };
        EvalResult::value(all, faults_if(self.lo < other.hi, Fault::Overflow))
    }

    pub fn mul(self, other: Interval) -> EvalResult
        ensures { Says result (interval_op 2 (as_interval self) (as_interval other)) }
    {
        capped(self.lo * other.lo, self.hi * other.hi)
    }

    pub fn div(self, other: Interval) -> EvalResult
        ensures { Says result (interval_op 3 (as_interval self) (as_interval other)) }
    {
        divided(quotient, self, other)
    }

    pub fn rem(self, other: Interval) -> EvalResult
        ensures { Says result (interval_op 4 (as_interval self) (as_interval other)) }
    {
        divided(remainder, self, other)
    }

    // An operation on two intervals, by its operator or by the operator's number: all numbers from 4 on are a remainder's.
    pub fn apply<O: Into<Operator>>(op: O, a: Interval, b: Interval) -> EvalResult
        ensures operator { (o : Operator) × O.converts op o × Says result (interval_op (operator_code o) (as_interval a) (as_interval b)) }
        ensures number { (k : ℕ) → ((o : Operator) → O.converts op o → o ≡ operator_of k) → Says result (interval_op k (as_interval a) (as_interval b)) }
    {
        Interval::operate(op.into(), a, b)
    }

    // An operation by its operator.
    pub(crate) fn operate(op: Operator, a: Interval, b: Interval) -> EvalResult
        ensures { Says result (interval_op (operator_code op) (as_interval a) (as_interval b)) }
    {
        match op {
            Operator::Sum => a.add(b),
            Operator::Difference => a.sub(b),
            Operator::Product => a.mul(b),
            Operator::Quotient => a.div(b),
            Operator::Remainder => a.rem(b),
        }
    }

    // An element of an array of `len` elements, which all lie in `array`.
    pub fn element_of(len: u64, array: Interval, index: Interval) -> EvalResult
        ensures { Says result (element_of len (as_interval array) (as_interval index)) }
    {
        if index.lo < len {
            return EvalResult::value(array, faults_if(index.hi >= len, Fault::Index));
        }
        EvalResult::never(Faults::of(Fault::Index))
    }
}
