// The pass through a statement by recursion over its bytes. What is known is one state that is lent down; a call of the recursion holds
// numbers only, and states are held by value only at branches, loops and tests. A struct of what is handed down would be made anew at each
// call, since the position changes with each, and the state at choices and loops. The first byte of a statement says what it is; it is read
// here alone, so an enum of these bytes would be one more match over the same numbers. The crate above that watches a statement has a pass of its
// own: one over both would say in a trait's laws what the two definitions say.
ghost use Rattle.std.specs.Prelude.{◌<◌, length, slice_index};
ghost use Rattle.program.specs.Syntax.{branch, loop};
ghost use Rattle.walker.specs.Ready.{HasNumber};
ghost use Rattle.walker.specs.Pass.{AtStmt, AtLoop, AtBranch, Walks, Settles, GoesRound};

use crate::simple::simple_at;
use crate::table::mark_faults;
use crate::types::{Round, Task};
use bytes_at::word_at;
use evaluate::test_at;
use fixpoint::next_state;
use state::Abstract;

// One round with recording off: what came first, joined with what the body makes of `start` where the test holds.
#[cycle(pass)]
fn round_at(task: &Task, pos: usize, left: usize, first: &Abstract, start: &Abstract) -> Round
    ensures { AtLoop task.now pos left (λ t a stop. GoesRound task.now stop t a first.now start.now result) }
{
    let ways = test_at(&task.code(), pos, left, start);
    let mut state = ways.yes;
    let end = walk_at(task, ways.end, left, &mut state, &mut []);
    state.join(first);
    Round { state, end }
}

// What is known at the head of the loop whose test stands at `pos`, once its rounds bring nothing new: joined at first, then widened; and
// where its body ends.
#[cycle(pass)]
pub fn settle_at(task: &Task, pos: usize, left: usize, first: &Abstract) -> Round
    ensures { AtLoop task.now pos left (λ t a stop. Settles task.now stop t a first.now result) }
{
    let mut state = *first;
    let mut end = pos;
    for i in 0..task.rounds {
        let next = round_at(task, pos, left, first, &state);
        end = next.end;
        if next.state.lies_within(&state) {
            return Round { state, end };
        }
        next_state(&mut state, &next.state, i, task.thresholds);
    }
    Round { state, end }
}

// A loop: the alarms of its body are those of the last state. With recording off the body is not gone through once more.
#[cycle(pass)]
fn loop_at(
    task: &Task,
    stmt: u64,
    pos: usize,
    left: usize,
    state: &mut Abstract,
    alarms: &mut [u64],
) -> usize
    ensures { AtLoop task.now pos left (λ t a stop. Walks task.now stop (loop stmt t a) state.old alarms.old state.new alarms.new result) }
{
    let settled = settle_at(task, pos, left, state);
    let ways = test_at(&task.code(), pos, left, &settled.state);
    if alarms.is_empty() && task.rounds > 0 {
        *state = ways.no;
        return settled.end;
    }
    mark_faults(alarms, stmt, ways.faults);
    let mut inside = ways.yes;
    let end = walk_at(task, ways.end, left, &mut inside, alarms);
    *state = ways.no;
    end
}

// A choice: both ways, then joined.
#[cycle(pass)]
fn branch_at(
    task: &Task,
    stmt: u64,
    pos: usize,
    left: usize,
    state: &mut Abstract,
    alarms: &mut [u64],
) -> usize
    ensures { AtBranch task.now pos left (λ t a b stop. Walks task.now stop (branch stmt t a b) state.old alarms.old state.new alarms.new result) }
{
    let ways = test_at(&task.code(), pos, left, state);
    mark_faults(alarms, stmt, ways.faults);
    let mut first = ways.yes;
    let mid = walk_at(task, ways.end, left, &mut first, alarms);
    *state = ways.no;
    let end = walk_at(task, mid, left, state, alarms);
    state.join(&first);
    end
}

// A choice, a loop or a statement without parts: its end. It stands apart from `walk_at`, which calls it at two places: a compiler that puts a
// function called once into its caller would give the room that choices and loops need to each frame of sequences in each other, of which
// there may be 16,379.
#[cycle(pass)]
fn numbered_at(
    task: &Task,
    pos: usize,
    left: usize,
    state: &mut Abstract,
    alarms: &mut [u64],
) -> usize
    requires inside { pos < length task.now.text.now }
    requires room { 0 < left }
    ensures { HasNumber (slice_index task.now.text.now pos) →
        AtStmt task.now pos left (λ d stop. Walks task.now stop d state.old alarms.old state.new alarms.new result) }
{
    match task.text[pos] {
        6 => branch_at(
            task,
            word_at(task.text, pos + 1),
            pos + 9,
            left - 1,
            state,
            alarms,
        ),
        7 => loop_at(
            task,
            word_at(task.text, pos + 1),
            pos + 9,
            left - 1,
            state,
            alarms,
        ),
        _ => simple_at(task, pos, left, state, alarms),
    }
}

// The statement at `pos`, of at most `left` bytes: its end.
#[cycle(pass)]
fn walk_at(task: &Task, pos: usize, left: usize, state: &mut Abstract, alarms: &mut [u64]) -> usize
    ensures { AtStmt task.now pos left (λ d stop. Walks task.now stop d state.old alarms.old state.new alarms.new result) }
{
    // Both bounds at once: `get` would answer for the text's end alone.
    if left == 0 || pos >= task.text.len() {
        return pos;
    }
    match task.text[pos] {
        0 => pos + 1,
        5 => {
            let mid = walk_at(task, pos + 1, left - 1, state, alarms);
            walk_at(task, mid, left - 1, state, alarms)
        }
        // Called at two places, as `numbered_at` says.
        6 => numbered_at(task, pos, left, state, alarms),
        _ => numbered_at(task, pos, left, state, alarms),
    }
}

// One pass through the statement at `pos`, of at most `left` bytes, from what is known and a table of alarms to those behind it; its end.
// The way in stands apart from the recursion, which no other crate names.
pub fn analyse_at(
    task: &Task,
    pos: usize,
    left: usize,
    state: &mut Abstract,
    alarms: &mut [u64],
) -> usize
    ensures { AtStmt task.now pos left (λ d stop. Walks task.now stop d state.old alarms.old state.new alarms.new result) }
{
    walk_at(task, pos, left, state, alarms)
}
