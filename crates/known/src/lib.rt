// What is known of a program's variables and arrays where one of its statements begins.

#![tactic(auto)]

ghost use Rattle.std.specs.Prelude.{◌≡◌};
ghost use Rattle.reader.specs.Request.{Loads};
ghost use Rattle.state.specs.Of.{as_abstract};
ghost use Rattle.known.specs.Known.{known_before, Known};

use reader::{Header, Request, read_command};
use state::Abstract;
use task::task_of;
use thresholds::THRESHOLDS;
use watch::{Watch, watch_at};

// What a pass through the program that the header was read from, from all 0, knows where statement `stmt` begins.
fn known_in(text: &[u8], header: &Header, stmt: u64) -> Abstract
    ensures { (l : Loads text.now header.now) → as_abstract result ≡ known_before l.program stmt }
{
    let mut table = [0; THRESHOLDS];
    let task = task_of(text, header, &mut table);
    let watch = Watch { task, stmt };
    let mut state = Abstract::initial();
    let mut seen = Abstract::Unreached;
    let _ = watch_at(&watch, header.body, task.text.len(), &mut state, &mut seen);
    seen
}

// What is known where statement `stmt` begins of the program that the text loads, as a command's bytes; none if it loads no valid program.
pub fn known_before(text: &[u8], stmt: u64) -> Option<Abstract>
    ensures { Known text.now stmt result }
{
    let Request::Load(header) = read_command(text)? else {
        return None;
    };
    Some(known_in(text, &header, stmt))
}
