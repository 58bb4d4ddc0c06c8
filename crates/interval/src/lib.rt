// Intervals by value: arithmetic, joining, cutting, widening, each exactly as the definitions have it; and the entry that calculates with
// intervals given by their bounds.

#![tactic(auto)]

ghost use Rattle.std.specs.Prelude.{◌≡◌, ◌+◌, ◌≤◌, length, if◌then◌else◌};
ghost use Rattle.interval.specs.Arithmetic.{EvalResult as PlainResult};
ghost use Rattle.interval.specs.Of.{Says};
ghost use Rattle.interval.specs.Entry.{smaller_of, ReckonSays, refusal, refusal_number, Calculated, SpanSays};

mod arithmetic;
mod faults;
mod lattice;
mod results;
mod types;

use program::OPERATORS;
pub use types::{EvalResult, Faults, Interval};

// What `reckon` answers. A fixed interface, and so no Option within a Result.
#[derive(Clone, Copy)]
pub enum Reply {
    // What may go wrong, as bits; the interval stands in the slice.
    Spread(u64),
    // It always goes wrong, by one of these.
    Never(u64),
    // The number of the refusal.
    Refused(u64),
}

// Why an operation is refused.
#[derive(Clone, Copy, PartialEq, Eq, Debug)]
enum Refusal {
    // There is no such operation.
    Operation,
    // Two bounds are those of no interval.
    Bounds,
    // The lent slice is too short.
    Room,
}

impl Refusal {
    // The number of it that is told.
    fn number(self) -> u64
        ensures { result ≡ refusal_number self }
    {
        match self {
            Refusal::Operation => 1,
            Refusal::Bounds => 2,
            Refusal::Room => 3,
        }
    }
}

// An interval takes so many places.
const PLACES: usize = 2;

// The kinds that operations have, as bits 0 and 1.
fn fault_bits(f: Faults) -> u64
    ensures { result ≡ (if f.overflow then 1 else 0) + (if f.divisor then 2 else 0) }
{
    u64::from(f.overflow) + 2 * u64::from(f.divisor)
}

// Puts the interval into the slice.
fn put_result(res: EvalResult, out: &mut [u64]) -> Reply
    requires { 2 ≤ length out.old }
    ensures { (w : PlainResult) → Says res w → ReckonSays w out.old result out.new }
{
    let bits = fault_bits(res.faults);
    let Some(s) = res.interval else {
        return Reply::Never(bits);
    };
    out[0] = s.lo;
    out[1] = s.hi;
    Reply::Spread(bits)
}

// The operation on what lies between two pairs of bounds, if the result has room in the slice. By number, as `reckon` is asked: its interface is
// fixed.
fn calculate(
    op: u64,
    first: (u64, u64),
    second: (u64, u64),
    out: &[u64],
) -> Result<EvalResult, Refusal>
    ensures { Calculated op first.0 first.1 second.0 second.1 (refusal op first.0 first.1 second.0 second.1 out.now) result }
{
    if op >= OPERATORS {
        return Err(Refusal::Operation);
    }
    let s = Interval::new(first.0, first.1).ok_or(Refusal::Bounds)?;
    let t = Interval::new(second.0, second.1).ok_or(Refusal::Bounds)?;
    if out.len() < PLACES {
        return Err(Refusal::Room);
    }
    Ok(Interval::apply(op, s, t))
}

// The operation on what lies from `a` to `b` and from `c` to `d`.
pub fn reckon(op: u64, a: u64, b: u64, c: u64, d: u64, out: &mut [u64]) -> Reply
    ensures { SpanSays op a b c d out.old (refusal op a b c d out.old) result out.new }
{
    match calculate(op, (a, b), (c, d), out) {
        Ok(r) => put_result(r, out),
        Err(refusal) => Reply::Refused(refusal.number()),
    }
}

// The smaller of two counts.
pub fn smaller_of(a: u64, b: u64) -> u64
    ensures { result ≡ smaller_of a b }
{
    a.min(b)
}
