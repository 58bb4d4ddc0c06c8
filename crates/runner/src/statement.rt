// Statements run over their bytes.
ghost use Rattle.std.specs.Prelude.{ℕ};
ghost use Rattle.runner.specs.Found.{stop_at};
ghost use Rattle.runner.specs.Running.{RunsStmt, RunsAssign, RunsStore, RunsInput, RunsCheck, RunsBranch, RunsLoop};

use crate::condition::{pair_at, test_at};
use crate::errors::at_stmt;
use crate::expression::eval_at;
use crate::skip::skip_stmt;
use crate::types::{EvalError, State, Stop, Task};
use bytes_at::{byte_at, word_at};
use program::Fault;

// An assignment, behind its number.
fn assign_at(task: &Task, pos: usize, left: usize, state: &mut State) -> Result<usize, EvalError>
    ensures { (p : ℕ) → RunsAssign task.now state.old state.new p pos left (stop_at p result) }
{
    let found = eval_at(task.text, pos.saturating_add(1), left, state)?;
    state.assign(byte_at(task.text, pos) as usize, found.value);
    Ok(found.end)
}

// A store, behind its number.
fn store_at(task: &Task, pos: usize, left: usize, state: &mut State) -> Result<usize, EvalError>
    ensures { (p : ℕ) → RunsStore task.now state.old state.new p pos left (stop_at p result) }
{
    let pair = pair_at(task.text, pos.saturating_add(1), left, state)?;
    state.store(byte_at(task.text, pos) as usize, pair.first, pair.second)?;
    Ok(pair.end)
}

// An input, behind its number: its end.
fn input_at(task: &Task, pos: usize, state: &mut State) -> usize
    ensures { RunsInput task.now state.old state.new pos result }
{
    let low = word_at(task.text, pos.saturating_add(1));
    let high = word_at(task.text, pos.saturating_add(9));
    state.input(task.inputs, byte_at(task.text, pos) as usize, low, high);
    pos.saturating_add(17)
}

// A check, behind its number.
fn check_at(task: &Task, pos: usize, left: usize, state: &State) -> Result<usize, EvalError>
    ensures { (p : ℕ) → RunsCheck task.now state.now p pos left (stop_at p result) }
{
    let test = test_at(task.text, pos, left, state)?;
    if test.holds {
        Ok(test.end)
    } else {
        Err(EvalError::Fault(Fault::Check))
    }
}

// A branch, behind its number: of its two statements one is run and the other stepped over.
#[cycle(branch_at_loop_at_run_at)]
fn branch_at(
    task: &Task,
    number: u64,
    pos: usize,
    left: usize,
    state: &mut State,
) -> Result<usize, Stop>
    ensures { RunsBranch task.now state.old state.new number pos left result }
{
    let test = at_stmt(number, test_at(task.text, pos, left, state))?;
    if test.holds {
        let second = run_at(task, test.end, left, state)?;
        return Ok(skip_stmt(task.text, second, left));
    }
    let second = skip_stmt(task.text, test.end, left);
    run_at(task, second, left, state)
}

// A loop, behind its number: its statement is run as long as its test holds, and at most `task.rounds` times tested.
#[cycle(branch_at_loop_at_run_at)]
fn loop_at(
    task: &Task,
    number: u64,
    pos: usize,
    left: usize,
    state: &mut State,
) -> Result<usize, Stop>
    ensures { RunsLoop task.now state.old state.new number pos left result }
{
    for _ in 0..task.rounds {
        let test = at_stmt(number, test_at(task.text, pos, left, state))?;
        if !test.holds {
            return Ok(skip_stmt(task.text, test.end, left));
        }
        let _ = run_at(task, test.end, left, state)?;
    }
    Err(Stop::OutOfRounds)
}

// The statement at `pos`, of at most `left` bytes: where it ends, or why the run stops.
// The match on the first byte is the reading itself: an enum between would be a second match over the same numbers.
// `pos` and `left` differ in each call, each in its own way, so they are no struct.
#[cycle(branch_at_loop_at_run_at)]
pub fn run_at(task: &Task, pos: usize, left: usize, state: &mut State) -> Result<usize, Stop>
    ensures { RunsStmt task.now state.old state.new pos left result }
{
    if left == 0 {
        return Err(Stop::NoProgram);
    }
    let number = word_at(task.text, pos.saturating_add(1));
    let next = pos.saturating_add(9);
    match byte_at(task.text, pos) {
        0 => Ok(pos.saturating_add(1)),
        1 => at_stmt(number, assign_at(task, next, left - 1, state)),
        2 => at_stmt(number, store_at(task, next, left - 1, state)),
        3 => Ok(input_at(task, next, state)),
        4 => at_stmt(number, check_at(task, next, left - 1, state)),
        5 => {
            let second = run_at(task, pos.saturating_add(1), left - 1, state)?;
            run_at(task, second, left - 1, state)
        }
        6 => branch_at(task, number, next, left - 1, state),
        7 => loop_at(task, number, next, left - 1, state),
        _ => Err(Stop::NoProgram),
    }
}
