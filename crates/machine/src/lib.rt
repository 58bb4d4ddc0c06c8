// The machine over lent memory and lent bytes: one step of it, with no allocator.

#![tactic(auto)]

ghost use Rattle.model.specs.Promise.{command, next};
ghost use Rattle.model.specs.Entry.{own, step_fits};
ghost use Rattle.tables.specs.Telling.{StepTold};
ghost use Rattle.machine.specs.Entry.{StepSays};

mod export;
mod load;

pub use export::{yunthrewi_memory_len, yunthrewi_step};
use load::load;
use reader::{Request, read_command};
pub use tables::Told;
use tables::{CURSOR, ROW, WORDS, show_end, show_from};

// A step takes a command, or goes on with the last one. The kinds are numbers, as C gives them.
pub const COMMAND: u64 = 0;

pub const GO_ON: u64 = 1;

// The step that a command asks for.
fn obey(memory: &mut [u64; WORDS], text: &[u8], out: &mut [u8; ROW]) -> Told
    ensures { StepTold (own.step memory.old (command text.now)) out.old result memory.new out.new }
{
    let Some(request) = read_command(text) else {
        return Told::No(1);
    };
    match request {
        Request::Load(header) => {
            load(memory, text, &header);
            Told::Done
        }
        Request::Alarms => show_from(memory, 0, out),
        Request::AtEnd(x) => show_end(memory, x as usize, out),
    }
}

// The last command goes on: the next alarm is shown.
fn go_on(memory: &mut [u64; WORDS], out: &mut [u8; ROW]) -> Told
    ensures { StepTold (own.step memory.old next) out.old result memory.new out.new }
{
    let cursor = memory[CURSOR] as usize;
    show_from(memory, cursor, out)
}

// One step: a command's text is taken if `kind` is 0, and the last command goes on if it is 1. A row stands in `out`.
pub fn step(memory: &mut [u64], kind: u64, text: &[u8], out: &mut [u8]) -> Told
    ensures { StepSays memory.old kind text.now out.old
        (step_fits memory.old kind out.old) result memory.new out.new }
{
    let Some(words) = memory.as_mut_array::<WORDS>() else {
        return Told::No(0);
    };
    let Some(row) = out.first_chunk_mut::<ROW>() else {
        return Told::No(0);
    };
    match kind {
        COMMAND => obey(words, text, row),
        GO_ON => go_on(words, row),
        _ => Told::No(0),
    }
}
