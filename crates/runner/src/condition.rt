// Tests worked out over their bytes.
ghost use Rattle.std.specs.Prelude.{◌≡◌, nat_eq, nat_lt, not};
ghost use Rattle.runner.specs.Skipping.{TestEnds};
ghost use Rattle.runner.specs.Working.{PairsAt, TestsAt};

use crate::expression::eval_at;
use crate::skip::skip_test;
use crate::types::{EvalError, Pair, State, Verdict};
use bytes_at::byte_at;

impl Pair {
    // Whether the first value is less.
    fn less(self) -> Verdict
        ensures holds { result.holds ≡ nat_lt self.first self.second }
        ensures end { result.end ≡ self.end }
    {
        Verdict {
            holds: self.first < self.second,
            end: self.end,
        }
    }

    // Whether the values are equal.
    fn equal(self) -> Verdict
        ensures holds { result.holds ≡ nat_eq self.first self.second }
        ensures end { result.end ≡ self.end }
    {
        Verdict {
            holds: self.first == self.second,
            end: self.end,
        }
    }
}

impl Verdict {
    // The opposite.
    fn negated(self) -> Verdict
        ensures holds { result.holds ≡ not self.holds }
        ensures end { result.end ≡ self.end }
    {
        Verdict {
            holds: !self.holds,
            end: self.end,
        }
    }

    // The same where the next test is not worked out, and its end.
    fn decided(self, text: &[u8], left: usize) -> Verdict
        ensures holds { result.holds ≡ self.holds }
        ensures end { TestEnds text.now self.end left result.end }
    {
        Verdict {
            holds: self.holds,
            end: skip_test(text, self.end, left),
        }
    }
}

// The values of two expressions, one behind the other, or why there is none.
pub fn pair_at(text: &[u8], pos: usize, left: usize, state: &State) -> Result<Pair, EvalError>
    ensures { PairsAt text.now state.now pos left result }
{
    let a = eval_at(text, pos, left, state)?;
    let b = eval_at(text, a.end, left, state)?;
    Ok(Pair {
        first: a.value,
        second: b.value,
        end: b.end,
    })
}

// Whether the test at `pos`, of at most `left` bytes, holds, or why that is not known.
// The second of two tests is worked out only if it matters. The match on the first byte is the reading itself.
pub fn test_at(text: &[u8], pos: usize, left: usize, state: &State) -> Result<Verdict, EvalError>
    ensures { TestsAt text.now state.now pos left result }
{
    if left == 0 {
        return Err(EvalError::NoProgram);
    }
    let next = pos.saturating_add(1);
    match byte_at(text, pos) {
        0 => Ok(pair_at(text, next, left - 1, state)?.less()),
        1 => Ok(pair_at(text, next, left - 1, state)?.equal()),
        2 => Ok(test_at(text, next, left - 1, state)?.negated()),
        3 => {
            let first = test_at(text, next, left - 1, state)?;
            if first.holds {
                return test_at(text, first.end, left - 1, state);
            }
            Ok(first.decided(text, left - 1))
        }
        4 => {
            let first = test_at(text, next, left - 1, state)?;
            if first.holds {
                return Ok(first.decided(text, left - 1));
            }
            test_at(text, first.end, left - 1, state)
        }
        _ => Err(EvalError::NoProgram),
    }
}
