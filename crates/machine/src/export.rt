// What C is offered, by the static library above this crate: the length of the memory, and a step that answers with one number.
ghost use Rattle.std.specs.Prelude.{◌≡◌};
ghost use Rattle.model.specs.Memory.{memory_size};
ghost use Rattle.machine.specs.Export.{code_of, Short, StepCoded};

use crate::step;
use tables::{Told, WORDS};

// A row is told by this and its length.
const ROWS: u64 = 1000;
// The step was not asked for properly.
const UNFIT: u64 = 999;

// What is told, as one number. No `From`, which could not ask that a row be short.
fn code_of(told: Told) -> u64
    requires { Short told }
    ensures { result ≡ code_of told }
{
    match told {
        Told::Shows(n) => ROWS + n,
        Told::Done => 0,
        Told::No(0) => UNFIT,
        Told::No(k) => k,
    }
}

// How many words the memory has.
pub fn yunthrewi_memory_len() -> u64
    ensures { result ≡ memory_size }
{
    WORDS as u64
}

// One step: 0 if the command has ended, 1000 and the length of the row in `out`, or the number of the refusal; 999 if the memory has
// another length, `kind` is neither 0 nor 1, or `out` has fewer than 16 bytes.
pub fn yunthrewi_step(memory: &mut [u64], kind: u64, text: &[u8], out: &mut [u8]) -> u64
    ensures { StepCoded memory.old kind text.now out.old result memory.new out.new }
{
    code_of(step(memory, kind, text, out))
}
