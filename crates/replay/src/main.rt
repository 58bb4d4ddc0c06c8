// Replays session files: for each command its rows in hex, a line each, and then how it ended.

#![tactic(auto)]

use anyhow::anyhow;
use outcome::exit_code;
use script::{ScriptError, hex_text, split_commands};
use session::{Answer, Session};
use std::process::ExitCode;
use std::{env, fs};

fn show(rt: &HostRuntime, answer: &Answer) -> anyhow::Result<()> {
    let heap = rt.alloc();
    for row in answer.rows.iter() {
        let bytes = row.bytes(heap)?;
        rt.println(hex_text(heap, bytes.as_slice())?)?;
    }
    let end = answer.end;
    println!(rt; "end {end}")?;
    Ok(())
}

// A file is a session of its own, and nothing of a damaged one is told.
fn replay(rt: &HostRuntime, path: &str) -> anyhow::Result<()> {
    let heap = rt.alloc();
    let Ok(file) = fs::read(rt, path) else {
        return Err(anyhow!(format!(in heap; "can't read {path}")?));
    };
    let commands = match split_commands(heap, file.as_slice()) {
        Err(e @ ScriptError::Damaged) => {
            return Err(anyhow!(format!(in heap; "{path} is {e}")?));
        }
        commands => commands?,
    };
    let mut session = Session::new(heap)?;
    for command in commands.iter() {
        let answer = session.tell(heap, command)?;
        show(rt, &answer)?;
    }
    Ok(())
}

// One chain in each program: a shared one would take the step as a closure, and be no shorter.
fn run(rt: &HostRuntime) -> anyhow::Result<()> {
    env::args(rt)?
        .skip(1)
        .try_for_each(|path| replay(rt, path.as_str()))
}

// An anyhow error, which is printed by its words, in case the message itself can't be written.
fn main(rt: HostRuntime) -> anyhow::Result<ExitCode> {
    Ok(exit_code(&rt, "replay", run(&rt))?)
}
