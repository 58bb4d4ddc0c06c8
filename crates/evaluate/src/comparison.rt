// What a comparison of two expressions tells of a state, whether it holds or not.
ghost use Rattle.std.specs.Prelude.{◌≡◌, ◌+◌, length};
ghost use Rattle.program.specs.Syntax.{Expr};
ghost use Rattle.program.specs.Encoding.{encode_expr};
ghost use Rattle.encoding.specs.Standing.{Stands};
ghost use Rattle.interval.specs.Of.{as_interval};
ghost use Rattle.state.specs.Of.{as_abstract};
ghost use Rattle.evaluate.specs.Comparing.{variable_of, less_in, not_less_in, equal_in, unequal_in, comparison, nowhere, Compared};
ghost use Rattle.evaluate.specs.Ready.{ExprReady};
ghost use Rattle.evaluate.specs.Found.{Splits};

use crate::expression::eval_here;
use crate::types::{Code, Comparison, Side, Ways};
use bytes_at::byte_at;
use interval::Faults;
use state::Abstract;

// The first is less than the second; each is cut if it is a variable.
fn assume_less(state: &mut Abstract, a: Side, b: Side)
    ensures { as_abstract state.new ≡ less_in a.variable b.variable (as_abstract state.old) (as_interval a.interval) (as_interval b.interval) }
{
    let s = a.interval;
    let t = b.interval;
    if s.lo >= t.hi {
        *state = Abstract::Unreached;
        return;
    }
    state.cut(a.variable, 0, t.hi - 1);
    state.cut(b.variable, s.lo + 1, t.hi);
}

// It is not.
fn assume_not_less(state: &mut Abstract, a: Side, b: Side)
    ensures { as_abstract state.new ≡ not_less_in a.variable b.variable (as_abstract state.old) (as_interval a.interval) (as_interval b.interval) }
{
    let s = a.interval;
    let t = b.interval;
    if t.lo > s.hi {
        *state = Abstract::Unreached;
        return;
    }
    state.cut(a.variable, t.lo, s.hi);
    state.cut(b.variable, 0, s.hi);
}

// The two are equal.
fn assume_equal(state: &mut Abstract, a: Side, b: Side)
    ensures { as_abstract state.new ≡ equal_in a.variable b.variable (as_abstract state.old) (as_interval a.interval) (as_interval b.interval) }
{
    let Some(both) = a.interval.cut(b.interval.lo, b.interval.hi) else {
        *state = Abstract::Unreached;
        return;
    };
    state.cut(a.variable, both.lo, both.hi);
    state.cut(b.variable, both.lo, both.hi);
}

// They are not, which is impossible only if both are one and the same number.
fn assume_unequal(state: &mut Abstract, a: Side, b: Side)
    ensures { as_abstract state.new ≡ unequal_in (as_abstract state.old) (as_interval a.interval) (as_interval b.interval) }
{
    let s = a.interval;
    if s.lo == s.hi && s == b.interval {
        *state = Abstract::Unreached;
    }
}

// Cuts the ways to where the comparison holds, and to where it does not.
fn compare(ways: &mut Ways, how: Comparison, a: Side, b: Side)
    ensures { Compared how a.variable b.variable (as_interval a.interval) (as_interval b.interval) ways.old ways.new }
{
    match how {
        Comparison::Less => {
            assume_less(&mut ways.yes, a, b);
            assume_not_less(&mut ways.no, a, b);
        }
        Comparison::Equal => {
            assume_equal(&mut ways.yes, a, b);
            assume_unequal(&mut ways.no, a, b);
        }
    }
}

// The variable at `pos`, if the expression there is one.
fn variable_at(text: &[u8], pos: usize) -> Option<usize>
    ensures { (e : Expr) → Stands text.now pos (encode_expr e) → result ≡ variable_of e }
{
    if byte_at(text, pos) == 1 {
        return Some(byte_at(text, pos + 1) as usize);
    }
    None
}

// Nothing comes further, with these faults.
fn stop(ways: &mut Ways, faults: Faults)
    ensures { ways.new ≡ nowhere faults ways.old.end }
{
    ways.yes = Abstract::Unreached;
    ways.no = Abstract::Unreached;
    ways.faults = faults;
}

// A comparison of the two expressions from `pos` on, each of at most `left` bytes, in the state `ways.yes`; `ways` is what it tells then.
pub fn compare_at(how: Comparison, code: &Code, pos: usize, left: usize, ways: &mut Ways)
    ensures { (a b : Expr) → ExprReady code.now.text.now pos left a → ExprReady code.now.text.now (pos + length (encode_expr a)) left b →
        Splits (pos + length (encode_expr a) + length (encode_expr b)) code.now.lengths.now (as_abstract ways.old.yes) (comparison how a b) ways.new }
{
    let a = eval_here(code, pos, left, &ways.yes);
    let b = eval_here(code, a.end, left, &ways.yes);
    ways.end = b.end;
    let Some(s) = a.result.interval else {
        return stop(ways, a.result.faults);
    };
    let faults = a.result.faults.or(b.result.faults);
    let Some(t) = b.result.interval else {
        return stop(ways, faults);
    };
    ways.no = ways.yes;
    ways.faults = faults;
    let first = Side {
        variable: variable_at(code.text, pos),
        interval: s,
    };
    let second = Side {
        variable: variable_at(code.text, a.end),
        interval: t,
    };
    compare(ways, how, first, second);
}
