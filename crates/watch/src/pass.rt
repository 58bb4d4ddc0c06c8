// The pass: what is known goes through it as in the analysis, and is joined with what was seen wherever the statement that is watched begins.
// It is like the analysis's own pass and apart from it, since each is the text of its own definition: at loops they do different things, and
// one pass over both would say in a trait's laws what the two definitions say. The first byte of a statement says what it is; it is read here
// alone, so an enum of these bytes would be one more match over the same numbers.
ghost use Rattle.std.specs.Prelude.{◌≡◌, ◌<◌, length, slice_index};
ghost use Rattle.program.specs.Syntax.{branch, loop};
ghost use Rattle.state.specs.Of.{as_abstract};
ghost use Rattle.walker.specs.Ready.{HasNoParts, HasNumber};
ghost use Rattle.walker.specs.Pass.{AtStmt, AtLoop, AtBranch};
ghost use Rattle.watch.specs.Watch.{noted};
ghost use Rattle.watch.specs.Pass.{Watches};

use crate::types::Watch;
use bytes_at::word_at;
use evaluate::test_at;
use state::Abstract;
use walker::{analyse_at, settle_at};

impl Watch<'_> {
    // The state in which statement `stmt` begins is seen, if that is the one that is watched.
    fn note(&self, stmt: u64, state: &Abstract, seen: &mut Abstract)
        ensures { as_abstract seen.new ≡ noted self.now.stmt stmt (as_abstract state.now) (as_abstract seen.old) }
    {
        if stmt == self.stmt {
            seen.join(state);
        }
    }
}

// A statement without parts. It stands apart from the recursion so that what it holds takes no room in its frames.
fn simple_at(
    watch: &Watch,
    pos: usize,
    left: usize,
    state: &mut Abstract,
    seen: &mut Abstract,
) -> usize
    requires { pos < length watch.now.task.text.now }
    ensures { HasNoParts (slice_index watch.now.task.text.now pos) →
        AtStmt watch.now.task pos left (λ d stop. Watches watch.now stop d state.old seen.old state.new seen.new result) }
{
    watch.note(word_at(watch.task.text, pos + 1), state, seen);
    analyse_at(&watch.task, pos, left, state, &mut [])
}

// A loop: its body is gone through with the last state at its head.
#[cycle(pass)]
fn loop_at(
    watch: &Watch,
    stmt: u64,
    pos: usize,
    left: usize,
    state: &mut Abstract,
    seen: &mut Abstract,
) -> usize
    ensures { AtLoop watch.now.task pos left (λ t a stop. Watches watch.now stop (loop stmt t a) state.old seen.old state.new seen.new result) }
{
    let settled = settle_at(&watch.task, pos, left, state);
    watch.note(stmt, &settled.state, seen);
    let ways = test_at(&watch.task.code(), pos, left, &settled.state);
    let mut inside = ways.yes;
    let end = pass_at(watch, ways.end, left, &mut inside, seen);
    *state = ways.no;
    end
}

// A choice: both ways, then joined.
#[cycle(pass)]
fn branch_at(
    watch: &Watch,
    stmt: u64,
    pos: usize,
    left: usize,
    state: &mut Abstract,
    seen: &mut Abstract,
) -> usize
    ensures { AtBranch watch.now.task pos left (λ t a b stop. Watches watch.now stop (branch stmt t a b) state.old seen.old state.new seen.new result) }
{
    watch.note(stmt, state, seen);
    let ways = test_at(&watch.task.code(), pos, left, state);
    let mut first = ways.yes;
    let mid = pass_at(watch, ways.end, left, &mut first, seen);
    *state = ways.no;
    let end = pass_at(watch, mid, left, state, seen);
    state.join(&first);
    end
}

// A choice, a loop or a statement without parts: its end. It stands apart from `pass_at`, which calls it at two places, so that what choices and
// loops hold takes no room in the frames of sequences, whichever compiler builds it.
#[cycle(pass)]
fn numbered_at(
    watch: &Watch,
    pos: usize,
    left: usize,
    state: &mut Abstract,
    seen: &mut Abstract,
) -> usize
    requires inside { pos < length watch.now.task.text.now }
    requires room { 0 < left }
    ensures { HasNumber (slice_index watch.now.task.text.now pos) →
        AtStmt watch.now.task pos left (λ d stop. Watches watch.now stop d state.old seen.old state.new seen.new result) }
{
    match watch.task.text[pos] {
        6 => branch_at(
            watch,
            word_at(watch.task.text, pos + 1),
            pos + 9,
            left - 1,
            state,
            seen,
        ),
        7 => loop_at(
            watch,
            word_at(watch.task.text, pos + 1),
            pos + 9,
            left - 1,
            state,
            seen,
        ),
        _ => simple_at(watch, pos, left, state, seen),
    }
}

// The statement at `pos`, of at most `left` bytes: its end.
#[cycle(pass)]
fn pass_at(
    watch: &Watch,
    pos: usize,
    left: usize,
    state: &mut Abstract,
    seen: &mut Abstract,
) -> usize
    ensures { AtStmt watch.now.task pos left (λ d stop. Watches watch.now stop d state.old seen.old state.new seen.new result) }
{
    // Both bounds at once: `get` would answer for the text's end alone.
    if left == 0 || pos >= watch.task.text.len() {
        return pos;
    }
    match watch.task.text[pos] {
        0 => pos + 1,
        5 => {
            let mid = pass_at(watch, pos + 1, left - 1, state, seen);
            pass_at(watch, mid, left - 1, state, seen)
        }
        // Called at two places, as `numbered_at` says.
        6 => numbered_at(watch, pos, left, state, seen),
        _ => numbered_at(watch, pos, left, state, seen),
    }
}

// One pass through the statement at `pos`, of at most `left` bytes, from what is known to what is known behind it. The states in which the
// statement that is watched begins are joined with what was seen. Its end.
pub fn watch_at(
    watch: &Watch,
    pos: usize,
    left: usize,
    state: &mut Abstract,
    seen: &mut Abstract,
) -> usize
    ensures { AtStmt watch.now.task pos left (λ d stop. Watches watch.now stop d state.old seen.old state.new seen.new result) }
{
    pass_at(watch, pos, left, state, seen)
}
