// What expressions come to, put together.
ghost use Rattle.std.specs.Prelude.{◌≡◌, ℕ};
ghost use Rattle.program.specs.Kinds.{operator_code, operator_of};
ghost use Rattle.interval.specs.Arithmetic.{EvalResult as PlainResult, combined, element_by};
ghost use Rattle.interval.specs.Of.{as_interval, after_faults, Says};

use crate::types::{EvalResult, Faults, Interval};
use program::Operator;

impl EvalResult {
    // The result after faults that may come first.
    pub fn after(self, before: Faults) -> EvalResult
        ensures { result ≡ after_faults before self }
    {
        EvalResult {
            interval: self.interval,
            faults: before.or(self.faults),
        }
    }

    // An operation on what two expressions come to, by its operator or by the operator's number.
    pub fn combine<O: Into<Operator>>(op: O, a: EvalResult, b: EvalResult) -> EvalResult
        ensures operator { (o : Operator) × O.converts op o × ((v w : PlainResult) → Says a v → Says b w → Says result (combined (operator_code o) v w)) }
        ensures number { (k : ℕ) → ((o : Operator) → O.converts op o → o ≡ operator_of k) → (v w : PlainResult) → Says a v → Says b w → Says result (combined k v w) }
    {
        EvalResult::combined(op.into(), a, b)
    }

    // The same by its operator; the second result counts only if the first can come to a value.
    fn combined(op: Operator, a: EvalResult, b: EvalResult) -> EvalResult
        ensures { (v w : PlainResult) → Says a v → Says b w → Says result (combined (operator_code op) v w) }
    {
        let Some(s) = a.interval else {
            return a;
        };
        let Some(t) = b.interval else {
            return b.after(a.faults);
        };
        Interval::operate(op, s, t).after(b.faults).after(a.faults)
    }

    // An element of an array of `len` elements, which all lie in `array`, where this is what the index comes to.
    pub fn element(self, len: u64, array: Interval) -> EvalResult
        ensures { (w : PlainResult) → Says self w → Says result (element_by len (as_interval array) w) }
    {
        let Some(index) = self.interval else {
            return self;
        };
        Interval::element_of(len, array, index).after(self.faults)
    }
}
