// Rows shown from the memory: alarms, one after another, and a variable's interval at the end.
ghost use Rattle.std.specs.Prelude.{◌≡◌, ◌<◌, ◌≤◌, ◌++◌, length, drop};
ghost use Rattle.std.specs.List.{position};
ghost use Rattle.model.specs.Machine.{slot_row, mark_from, show_from, show_end};
ghost use Rattle.tables.specs.Telling.{StepTold};
ghost use Rattle.tables.specs.Slots.{is_mark, Finds};

use crate::bytes::write_number;
use crate::layout::{CURSOR, ENDS, NO_END, SCRATCH, SLOTS, TABLE, VARS, WORDS};
use crate::types::Told;

// Where the first mark is.
fn first_mark(marks: &[u64]) -> Option<usize>
    ensures { result ≡ position is_mark marks.now }
{
    marks.iter().position(|&mark| mark != 0)
}

// The first slot from `cursor` on that is marked.
fn find_mark(memory: &[u64; WORDS], cursor: usize) -> Option<usize>
    ensures { Finds (mark_from memory.now cursor) result }
{
    let marks = memory[TABLE..SCRATCH].get(cursor..)?;
    let passed = first_mark(marks)?;
    Some(cursor + passed)
}

// The alarm of a slot, in nine bytes: its statement, then its kind.
fn write_alarm(out: &mut [u8], slot: usize)
    requires { (16 ≤ length out.old) × (slot < 10920) }
    ensures { out.new ≡ slot_row slot ++ drop 9 out.old }
{
    write_number(out, 0, slot as u64 / 4 + 1);
    out[8] = (slot % 4 + 1) as u8;
}

// The first alarm from `cursor` on is shown and the cursor moved behind it; if there is none, the command has ended. The row stands at the front
// of what is lent, which may be longer.
pub fn show_from(memory: &mut [u64; WORDS], cursor: usize, out: &mut [u8]) -> Told
    requires { 16 ≤ length out.old }
    ensures { StepTold (show_from memory.old cursor) out.old result memory.new out.new }
{
    match find_mark(memory, cursor) {
        Some(i) => {
            memory[CURSOR] = i as u64 + 1;
            write_alarm(out, i);
            Told::Shows(9)
        }
        None => {
            memory[CURSOR] = SLOTS as u64;
            Told::Done
        }
    }
}

// Variable x's interval at the end is shown; nothing is if no run comes to an end, and there must be such a variable.
pub fn show_end(memory: &mut [u64; WORDS], x: usize, out: &mut [u8]) -> Told
    requires { (x < 64) × (16 ≤ length out.old) }
    ensures { StepTold (show_end memory.old x) out.old result memory.new out.new }
{
    if x as u64 >= memory[VARS] {
        return Told::No(3);
    }
    if memory[NO_END] != 0 {
        return Told::Done;
    }
    let bounds = ENDS + 2 * x;
    write_number(out, 0, memory[bounds]);
    write_number(out, 8, memory[bounds + 1]);
    memory[CURSOR] = SLOTS as u64;
    Told::Shows(16)
}
