// Expressions worked out over their bytes.
ghost use Rattle.std.specs.Prelude.{◌≡◌};
ghost use Rattle.program.specs.Kinds.{operator_code};
ghost use Rattle.program.specs.Semantics.{in_range, apply_op};
ghost use Rattle.runner.specs.Found.{as_evaluated};
ghost use Rattle.runner.specs.Working.{EvaluatesAt};

use crate::types::{EvalError, State, Value};
use bytes_at::{byte_at, word_at};
use program::{Fault, LIMIT, Operator};

// A sum or a product, if it is a number of the language.
fn number(n: u128) -> Result<u64, Fault>
    ensures { as_evaluated result ≡ in_range n }
{
    if n < u128::from(LIMIT) {
        Ok(n as u64)
    } else {
        Err(Fault::Overflow)
    }
}

// One operation on two values.
fn apply(op: Operator, a: u64, b: u64) -> Result<u64, Fault>
    ensures { as_evaluated result ≡ apply_op (operator_code op) a b }
{
    match op {
        Operator::Sum => number(u128::from(a) + u128::from(b)),
        Operator::Difference => a.checked_sub(b).ok_or(Fault::Overflow),
        Operator::Product => number(u128::from(a) * u128::from(b)),
        Operator::Quotient => a.checked_div(b).ok_or(Fault::Divisor),
        Operator::Remainder => a.checked_rem(b).ok_or(Fault::Divisor),
    }
}

// The expression at `pos`, of at most `left` bytes: its value, or why there is none.
// The match on the first byte is the reading itself: an enum between would be a second match over the same numbers.
pub fn eval_at(text: &[u8], pos: usize, left: usize, state: &State) -> Result<Value, EvalError>
    ensures { EvaluatesAt text.now state.now pos left result }
{
    if left == 0 {
        return Err(EvalError::NoProgram);
    }
    let second = byte_at(text, pos.saturating_add(1));
    let next = pos.saturating_add(2);
    match byte_at(text, pos) {
        0 => Ok(Value {
            value: word_at(text, pos.saturating_add(1)),
            end: pos.saturating_add(9),
        }),
        1 => Ok(Value {
            value: state.variable(second as usize),
            end: next,
        }),
        2 => {
            let a = eval_at(text, next, left - 1, state)?;
            let b = eval_at(text, a.end, left - 1, state)?;
            let op = Operator::from(u64::from(second));
            let value = apply(op, a.value, b.value)?;
            Ok(Value { value, end: b.end })
        }
        3 => {
            let index = eval_at(text, next, left - 1, state)?;
            let value = state.element(second as usize, index.value)?;
            Ok(Value {
                value,
                end: index.end,
            })
        }
        _ => Err(EvalError::NoProgram),
    }
}
