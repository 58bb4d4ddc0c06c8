// What a pass through a loaded program needs: its text, its arrays' lengths, its thresholds and the most rounds of a loop.

#![tactic(auto)]

ghost use Rattle.std.specs.Prelude.{◌≡◌, length};
ghost use Rattle.reader.specs.Request.{Loads};
ghost use Rattle.task.specs.Task.{TaskOf};

use fixpoint::round_limit;
use reader::Header;
use thresholds::collect;
use walker::Task;

// The task of a pass through the program that the header was read from; the thresholds are put to the front of the table.
pub fn task_of<'a>(text: &'a [u8], header: &'a Header, table: &'a mut [u64]) -> Task<'a>
    requires { length table.old ≡ 11000 }
    ensures { (l : Loads text.now header.now) → TaskOf l.program text.now result }
{
    let lengths = header.lengths();
    let count = collect(text, header.body, lengths, table);
    Task {
        text,
        lengths,
        thresholds: &table[..count],
        rounds: round_limit(header.vars, header.arrays, count),
    }
}
