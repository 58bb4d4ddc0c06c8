// Expressions worked out over their bytes.
ghost use Rattle.std.specs.Prelude.{◌≡◌, ◌+◌, [], length, slice_index};
ghost use Rattle.program.specs.Syntax.{Expr};
ghost use Rattle.program.specs.Encoding.{encode_expr};
ghost use Rattle.interval.specs.Arithmetic.{eval_result};
ghost use Rattle.analysis.specs.Evaluation.{eval_interval};
ghost use Rattle.state.specs.Of.{as_abstract};
ghost use Rattle.evaluate.specs.Ready.{ExprReady};
ghost use Rattle.evaluate.specs.Found.{env_in, eval_here, Evaluates};

use crate::types::{Code, Evaluated};
use bytes_at::{byte_at, word_at};
use interval::{EvalResult, Faults, Interval};
use program::Operator;
use state::Abstract;

// No value: for what is no expression.
fn nothing_at(pos: usize) -> Evaluated
    ensures { Evaluates pos (eval_result [] []) result }
{
    Evaluated {
        result: EvalResult::never(Faults::none()),
        end: pos,
    }
}

// How many elements an array has; 0 if there is no such array.
pub fn length_at(lengths: &[u64], r: usize) -> u64
    ensures { result ≡ slice_index lengths.now r }
{
    lengths.get(r).copied().unwrap_or(0)
}

// The expression at `pos`, of at most `left` bytes; where nothing comes all variables and elements count as 0.
fn eval_from(code: &Code, pos: usize, left: usize, state: &Abstract) -> Evaluated
    ensures { (e : Expr) → ExprReady code.now.text.now pos left e →
        Evaluates (pos + length (encode_expr e)) (eval_interval code.now.lengths.now (env_in (as_abstract state.now)) e) result }
{
    // Both bounds at once: `get` would answer for the text's end alone.
    if left == 0 || pos >= code.text.len() {
        return nothing_at(pos);
    }
    let next = pos.saturating_add(2);
    // By the numbers of the encoding: an enum of them would be matched once more.
    match code.text[pos] {
        0 => Evaluated {
            result: Interval::number(word_at(code.text, pos + 1)),
            end: pos.saturating_add(9),
        },
        1 => Evaluated {
            result: EvalResult::value(
                state.variable(byte_at(code.text, pos + 1) as usize),
                Faults::none(),
            ),
            end: next,
        },
        2 => {
            let a = eval_from(code, next, left - 1, state);
            let b = eval_from(code, a.end, left - 1, state);
            Evaluated {
                result: EvalResult::combine(
                    Operator::from(byte_at(code.text, pos + 1) as u64),
                    a.result,
                    b.result,
                ),
                end: b.end,
            }
        }
        3 => {
            let a = eval_from(code, next, left - 1, state);
            let r = byte_at(code.text, pos + 1) as usize;
            Evaluated {
                result: a.result.element(length_at(code.lengths, r), state.array(r)),
                end: a.end,
            }
        }
        _ => nothing_at(pos),
    }
}

// The expression at `pos`, of at most `left` bytes; where nothing comes it has no value and no faults.
pub fn eval_here(code: &Code, pos: usize, left: usize, state: &Abstract) -> Evaluated
    ensures { (e : Expr) → ExprReady code.now.text.now pos left e →
        Evaluates (pos + length (encode_expr e)) (eval_here code.now.lengths.now (as_abstract state.now) e) result }
{
    let found = eval_from(code, pos, left, state);
    match state {
        Abstract::Unreached => nothing_at(found.end),
        Abstract::Reached(_) => found,
    }
}
