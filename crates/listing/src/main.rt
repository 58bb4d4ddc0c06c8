// Lists encoded programs: the text of the program in each file.

#![tactic(auto)]

use anyhow::anyhow;
use outcome::exit_code;
use printer::{PrintError, print_program};
use std::process::ExitCode;
use std::{env, fs};

fn list(rt: &HostRuntime, path: &str) -> anyhow::Result<()> {
    let heap = rt.alloc();
    let Ok(program) = fs::read(rt, path) else {
        return Err(anyhow!(format!(in heap; "can't read {path}")?));
    };
    match print_program(heap, program.as_slice()) {
        Ok(text) => print!(rt; "{text}")?,
        Err(PrintError::NoProgram) => println!(rt; "{path} is no program")?,
        Err(e) => return Err(e.into()),
    }
    Ok(())
}

// One chain in each program: a shared one would take the step as a closure, and be no shorter.
fn run(rt: &HostRuntime) -> anyhow::Result<()> {
    env::args(rt)?
        .skip(1)
        .try_for_each(|path| list(rt, path.as_str()))
}

// An anyhow error, which is printed by its words, in case the message itself can't be written.
fn main(rt: HostRuntime) -> anyhow::Result<ExitCode> {
    Ok(exit_code(&rt, "listing", run(&rt))?)
}
