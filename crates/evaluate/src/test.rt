// Tests worked out over their bytes: both outcomes in one pass.
ghost use Rattle.std.specs.Prelude.{◌+◌, length};
ghost use Rattle.program.specs.Syntax.{Test};
ghost use Rattle.program.specs.Encoding.{encode_test};
ghost use Rattle.state.specs.Of.{as_abstract};
ghost use Rattle.evaluate.specs.Ready.{TestReady};
ghost use Rattle.evaluate.specs.Found.{Splits};

use crate::comparison::compare_at;
use crate::types::{Code, Comparison, Ways};
use interval::Faults;
use state::Abstract;
use std::mem::swap;

// The test at `pos`, of at most `left` bytes, in the state `ways.yes`; `ways` is what it tells then.
// In place, so that a level of nesting copies a state once or twice, and none is passed by value. The arms of `and` and `or` mirror each other:
// one for both would choose a side in three places.
fn test_from(code: &Code, pos: usize, left: usize, ways: &mut Ways)
    ensures { (t : Test) → TestReady code.now.text.now pos left t →
        Splits (pos + length (encode_test t)) code.now.lengths.now (as_abstract ways.old.yes) t ways.new }
{
    // Both bounds at once: `get` would answer for the text's end alone.
    if left == 0 || pos >= code.text.len() {
        return;
    }
    // By the numbers of the encoding: an enum of them would be matched once more.
    match code.text[pos] {
        0 => compare_at(Comparison::Less, code, pos + 1, left - 1, ways),
        1 => compare_at(Comparison::Equal, code, pos + 1, left - 1, ways),
        2 => {
            test_from(code, pos + 1, left - 1, ways);
            swap(&mut ways.yes, &mut ways.no);
        }
        3 => {
            test_from(code, pos + 1, left - 1, ways);
            let first = ways.faults;
            let no = ways.no;
            test_from(code, ways.end, left - 1, ways);
            ways.faults = first.or(ways.faults);
            ways.no.join(&no);
        }
        4 => {
            test_from(code, pos + 1, left - 1, ways);
            let first = ways.faults;
            let yes = ways.yes;
            ways.yes = ways.no;
            test_from(code, ways.end, left - 1, ways);
            ways.faults = first.or(ways.faults);
            ways.yes.join(&yes);
        }
        _ => {}
    }
}

// The test at `pos`, of at most `left` bytes: what is known of the state if it holds, and if it does not, and what may go wrong in it.
pub fn test_at(code: &Code, pos: usize, left: usize, state: &Abstract) -> Ways
    ensures { (t : Test) → TestReady code.now.text.now pos left t →
        Splits (pos + length (encode_test t)) code.now.lengths.now (as_abstract state.now) t result }
{
    let mut ways = Ways {
        yes: *state,
        no: Abstract::Unreached,
        faults: Faults::none(),
        end: pos,
    };
    test_from(code, pos, left, &mut ways);
    ways
}
