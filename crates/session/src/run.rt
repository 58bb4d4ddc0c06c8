// A command run to its end, row by row.
ghost use Rattle.std.specs.Prelude.{◌≡◌, length, IfOk, OnErr};
ghost use Rattle.session.specs.Answers.{Ended, Kept};

use crate::rows::{Row, read_row};
use machine::{COMMAND, GO_ON, Told, step};
use std::alloc::{AllocError, Global};
use tables::ROW;

// What a command shows, and how it ends: with 0, or with the number of its refusal, as the machine's answers are numbered.
#[derive(Drop)]
pub struct Answer {
    pub rows: Vec<Row>,
    pub end: u64,
}

// Step after step, until the command has ended. It ends since each row moves the cursor on.
pub fn run_command(memory: &mut [u64], heap: Global, text: &[u8]) -> Result<Answer, AllocError>
    requires { length memory.old ≡ 22083 }
    ensures ended { IfOk result (λ a. Ended memory.old text.now a.rows.items a.end memory.new) }
    ensures kept { OnErr result (Kept memory.old memory.new) }
{
    let mut out = [0u8; ROW];
    let mut rows = Vec::new(heap);
    let mut kind = COMMAND;
    loop {
        match step(memory, kind, text, &mut out) {
            Told::Shows(n) => rows.push(read_row(&out, n))?,
            Told::Done => return Ok(Answer { rows, end: 0 }),
            Told::No(number) => return Ok(Answer { rows, end: number }),
        }
        kind = GO_ON;
    }
}
