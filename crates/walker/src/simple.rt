// Statements without parts: assignments, stores, inputs, checks.
ghost use Rattle.std.specs.Prelude.{◌≡◌, ℕ, ◌+◌, ◌<◌, List, length, slice_index};
ghost use Rattle.program.specs.Syntax.{Test, Stmt};
ghost use Rattle.program.specs.Encoding.{encode_stmt};
ghost use Rattle.encoding.specs.Parts.{AssignAt, StoreAt, InputAt, CheckAt};
ghost use Rattle.interval.specs.Arithmetic.{EvalResult as PlainResult};
ghost use Rattle.interval.specs.Of.{Faulty, Says};
ghost use Rattle.analysis.specs.AbstractState.{Abstract as PlainAbstract};
ghost use Rattle.state.specs.Of.{as_abstract};
ghost use Rattle.walker.specs.Ready.{HasNoParts};
ghost use Rattle.walker.specs.Simple.{Passes};
ghost use Rattle.walker.specs.Store.{store_result};
ghost use Rattle.analysis.specs.Clauses.{check_faults_here};
ghost use Rattle.evaluate.specs.Found.{Splits};

use crate::table::mark_faults;
use crate::types::Task;
use bytes_at::{byte_at, word_at};
use evaluate::{Ways, eval_here, length_at, test_at};
use interval::{EvalResult, Faults, Interval};
use program::Fault;
use state::Abstract;

// What is to be stored, if anything, in an array of `n` elements, and the faults of a store on the way.
fn store_result(n: u64, index: EvalResult, value: EvalResult) -> EvalResult
    ensures { (i v : PlainResult) → Says index i → Says value v → Says result (store_result n i v) }
{
    let Some(i) = index.interval else {
        return index;
    };
    let both = value.after(index.faults);
    let Some(v) = value.interval else {
        return both;
    };
    Interval::element_of(n, v, i).after(both.faults)
}

// A variable gets what an expression comes to.
fn assign_at(
    task: &Task,
    pos: usize,
    left: usize,
    state: &mut Abstract,
    alarms: &mut [u64],
) -> usize
    requires { pos < length task.now.text.now }
    ensures { Passes task.now pos left AssignAt state.old alarms.old state.new alarms.new result }
{
    let stmt = word_at(task.text, pos + 1);
    let x = byte_at(task.text, pos + 9) as usize;
    let found = eval_here(&task.code(), pos + 10, left, state);
    mark_faults(alarms, stmt, found.result.faults);
    match found.result.interval {
        Some(s) => state.put(x, s),
        None => *state = Abstract::Unreached,
    }
    found.end
}

// What an expression comes to is joined into an array.
fn store_at(task: &Task, pos: usize, left: usize, state: &mut Abstract, alarms: &mut [u64]) -> usize
    requires { pos < length task.now.text.now }
    ensures { Passes task.now pos left StoreAt state.old alarms.old state.new alarms.new result }
{
    let stmt = word_at(task.text, pos + 1);
    let r = byte_at(task.text, pos + 9) as usize;
    let code = task.code();
    let index = eval_here(&code, pos + 10, left, state);
    let value = eval_here(&code, index.end, left, state);
    let stored = store_result(length_at(task.lengths, r), index.result, value.result);
    mark_faults(alarms, stmt, stored.faults);
    match stored.interval {
        Some(s) => state.store(r, s),
        None => *state = Abstract::Unreached,
    }
    value.end
}

// A variable gets what is read.
fn input_at(task: &Task, pos: usize, left: usize, state: &mut Abstract) -> usize
    requires { pos < length task.now.text.now }
    ensures { (t : List ℕ) → Passes task.now pos left InputAt state.old t state.new t result }
{
    let x = byte_at(task.text, pos + 9) as usize;
    let lo = word_at(task.text, pos + 10);
    let hi = word_at(task.text, pos + 18);
    if let Some(range) = Interval::new(lo, hi) {
        state.put(x, range);
    }
    pos + 26
}

// The faults of a check: its test's, and one more if it can be that the test does not hold.
fn check_faults(ways: &Ways) -> Faults
    ensures { (stop : ℕ) (ns : List ℕ) (h : PlainAbstract) (t : Test) → Splits stop ns h t ways.now → Faulty result (check_faults_here ns t h) }
{
    match ways.no {
        Abstract::Unreached => ways.faults,
        Abstract::Reached(_) => ways.faults.or(Faults::of(Fault::Check)),
    }
}

// What is known where a test holds.
fn check_at(task: &Task, pos: usize, left: usize, state: &mut Abstract, alarms: &mut [u64]) -> usize
    requires { pos < length task.now.text.now }
    ensures { Passes task.now pos left CheckAt state.old alarms.old state.new alarms.new result }
{
    let stmt = word_at(task.text, pos + 1);
    let ways = test_at(&task.code(), pos + 9, left, state);
    mark_faults(alarms, stmt, check_faults(&ways));
    *state = ways.yes;
    ways.end
}

// A statement without parts. It stands apart from the recursion so that what these hold takes no room in its frames.
pub fn simple_at(
    task: &Task,
    pos: usize,
    left: usize,
    state: &mut Abstract,
    alarms: &mut [u64],
) -> usize
    requires { pos < length task.now.text.now }
    ensures { Passes task.now pos left (λ text at d. HasNoParts (slice_index text at)) state.old alarms.old state.new alarms.new result }
{
    // By the numbers of the encoding: an enum of them would be matched once more.
    match task.text[pos] {
        1 => assign_at(task, pos, left, state, alarms),
        2 => store_at(task, pos, left, state, alarms),
        3 => input_at(task, pos, left, state),
        4 => check_at(task, pos, left, state, alarms),
        _ => pos,
    }
}
