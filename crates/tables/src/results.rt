// What an analysis found, stored in the memory.
ghost use Rattle.std.specs.Prelude.{◌≡◌, ◌*◌, length};
ghost use Rattle.model.specs.Memory.{zeros, bounds, end_bounds, no_end, memory_with};
ghost use Rattle.state.specs.Of.{as_intervals, as_abstract};

use crate::layout::{CURSOR, ENDS, NO_END, SCRATCH, SLOTS, TABLE, VARS, WORDS};
use interval::Interval;
use state::Abstract;

// Where the arrays' bounds begin among the bounds, and how many words there are in all.
const ARRAYS: usize = 128;

const BOUNDS: usize = 160;

// All words are 0.
fn clear(words: &mut [u64])
    ensures { words.new ≡ zeros (length words.old) }
{
    words.fill(0);
}

// The bounds of intervals, one after another. Written by index, since nothing is known of words written through a slice's iterator under an adapter.
fn store_intervals(words: &mut [u64], list: &[Interval])
    requires { length words.old ≡ 2 * length list.now }
    ensures { words.new ≡ bounds (length list.now) (as_intervals list.now) }
{
    for (i, interval) in list.iter().enumerate() {
        words[2 * i] = interval.lo;
        words[2 * i + 1] = interval.hi;
    }
}

// The bounds of variables and arrays; all 0 if nothing comes there.
fn store_ends(words: &mut [u64], state: &Abstract)
    requires { length words.old ≡ 160 }
    ensures { words.new ≡ end_bounds (as_abstract state.now) }
{
    match state {
        Abstract::Unreached => clear(words),
        Abstract::Reached(w) => {
            store_intervals(&mut words[0..ARRAYS], &w.values);
            store_intervals(&mut words[ARRAYS..BOUNDS], &w.arrays);
        }
    }
}

// 1 if nothing comes there.
fn no_end(state: &Abstract) -> u64
    ensures { result ≡ no_end (as_abstract state.now) }
{
    u64::from(matches!(state, Abstract::Unreached))
}

// The memory of a program with so many variables, of which this is known at the end, and whose alarms are marked in the table.
pub fn store(memory: &mut [u64; WORDS], vars: u64, state: &Abstract, table: &[u64; SLOTS])
    ensures { memory.new ≡ memory_with 0 vars (as_abstract state.now) table.now }
{
    memory[VARS] = vars;
    memory[NO_END] = no_end(state);
    memory[CURSOR] = 0;
    store_ends(&mut memory[ENDS..TABLE], state);
    memory[TABLE..SCRATCH].copy_from_slice(table);
    clear(&mut memory[SCRATCH..WORDS]);
}
