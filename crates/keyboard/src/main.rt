// The analyser at a keyboard: a command a line, and its answer.

#![tactic(auto)]

use console::{Line, alarm_line, bounds_line, parse_line, refusal_line};
use session::{Row, Session};
use std::{fs, io};

const HELP: [&str; 4] = [
    "load FILE      take the encoded program in FILE",
    "alarms         list where the program can go wrong",
    "at the end N   tell where variable N lies when a run ends",
    "help           show these lines",
];

// The number by which the machine refuses what is no command; a session gives it as the machine does.
const NO_COMMAND: u64 = 1;

// Line by line, so that a reader that stops has those before.
fn help(rt: &HostRuntime) -> io::Result<()> {
    for line in HELP {
        println!(rt; "{line}")?;
    }
    Ok(())
}

fn refuse(rt: &HostRuntime, number: u64) -> io::Result<()> {
    rt.println(refusal_line(rt.alloc(), number)?)
}

// The file has the program's bytes, without the command's first.
fn load(rt: &HostRuntime, session: &mut Session, path: &str) -> io::Result<()> {
    let heap = rt.alloc();
    let Ok(program) = fs::read(rt, path) else {
        return println!(rt; "can't read {path}");
    };
    let answer = session.load(heap, program.as_slice())?;
    if answer.end != 0 {
        return refuse(rt, answer.end);
    }
    println!(rt; "loaded {path}")
}

fn alarms(rt: &HostRuntime, session: &mut Session) -> io::Result<()> {
    let heap = rt.alloc();
    let answer = session.alarms(heap)?;
    if answer.rows.is_empty() {
        return println!(rt; "no alarms");
    }
    for row in answer.rows.iter() {
        if let Row::Alarm { stmt, kind } = *row {
            rt.println(alarm_line(heap, stmt, u64::from(kind))?)?;
        }
    }
    Ok(())
}

fn at_end(rt: &HostRuntime, session: &mut Session, name: &str) -> io::Result<()> {
    let heap = rt.alloc();
    let Ok(x) = name.parse::<u8>() else {
        return refuse(rt, NO_COMMAND);
    };
    let answer = session.at_end(heap, x)?;
    if answer.end != 0 {
        return refuse(rt, answer.end);
    }
    if answer.rows.is_empty() {
        return println!(rt; "{x}: no run comes to an end");
    }
    for row in answer.rows.iter() {
        if let Row::Bounds { lo, hi } = *row {
            rt.println(bounds_line(heap, x, lo, hi)?)?;
        }
    }
    Ok(())
}

fn answer(rt: &HostRuntime, session: &mut Session, line: &str) -> io::Result<()> {
    match parse_line(line) {
        Line::Blank => Ok(()),
        Line::Help => help(rt),
        Line::Alarms => alarms(rt, session),
        Line::AtEnd(name) => at_end(rt, session, name),
        Line::Load(path) => load(rt, session, path),
        Line::Unknown => println!(rt; "not a command: {line} (help lists them)"),
    }
}

fn main(rt: HostRuntime) -> io::Result<()> {
    let mut session = Session::new(rt.alloc())?;
    for line in rt.lines(rt.alloc()) {
        let text = line?;
        answer(&rt, &mut session, text.as_str().trim())?;
    }
    Ok(())
}
