// A program is loaded: it is analysed at once, and the memory holds what was found.
ghost use Rattle.std.specs.Prelude.{◌≡◌, length};
ghost use Rattle.std.specs.List.Sorted.{IsNonDecreasing};
ghost use Rattle.program.specs.Syntax.{Stmt};
ghost use Rattle.model.specs.Memory.{laid};
ghost use Rattle.reader.specs.Request.{Loads};
ghost use Rattle.state.specs.Of.{as_abstract};
ghost use Rattle.walker.specs.Ready.{StmtReady};
ghost use Rattle.machine.specs.Loading.{BodyAnalysed};

use reader::Header;
use state::Abstract;
use tables::{SCRATCH, SLOTS, WORDS, store};
use task::task_of;
use walker::{Task, analyse_at};

// What is known behind the statement at `body`, from all 0; its alarms are marked in the table.
fn analyse_body(task: &Task, body: usize, table: &mut [u64]) -> Abstract
    ensures { (d : Stmt) → IsNonDecreasing task.now.thresholds.now → StmtReady task.now.text.now body (length task.now.text.now) d →
        BodyAnalysed task.now.lengths.now task.now.thresholds.now task.now.rounds d (as_abstract result) table.old table.new }
{
    let mut state = Abstract::initial();
    let _ = analyse_at(task, body, task.text.len(), &mut state, table);
    state
}

// The program that the header was read from is analysed, and the memory is that of the program, whatever it was.
pub fn load(memory: &mut [u64; WORDS], text: &[u8], header: &Header)
    ensures { (l : Loads text.now header.now) → memory.new ≡ laid 0 l.program }
{
    // Made before the task: behind it, the compiler would clear it twice.
    let mut table = [0; SLOTS];
    let task = task_of(text, header, &mut memory[SCRATCH..WORDS]);
    let state = analyse_body(&task, header.body, &mut table);
    store(memory, header.vars, &state, &table);
}
