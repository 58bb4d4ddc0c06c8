// What a line at the keyboard asks, and the words in which answers are printed.

#![tactic(auto)]

ghost use Rattle.std.specs.Prelude.{◌≡◌, IfOk, string_bytes};
ghost use Rattle.console.specs.Lines.{Asks, fault_words, refusal_words, alarm_words, bounds_words, refused_words};

use std::alloc::{AllocError, Global};

// A line, taken apart; what stands behind the command's words is lent from it.
#[derive(Clone, Copy)]
pub enum Line<'a> {
    Blank,
    Help,
    Alarms,
    AtEnd(&'a str),
    Load(&'a str),
    Unknown,
}

// A line without white space around it.
pub fn parse_line(line: &str) -> Line<'_>
    ensures { Asks line.now result }
{
    match line {
        "" => Line::Blank,
        "help" => Line::Help,
        "alarms" => Line::Alarms,
        _ => {
            if let Some(path) = line.strip_prefix("load ") {
                Line::Load(path)
            } else if let Some(name) = line.strip_prefix("at the end ") {
                Line::AtEnd(name)
            } else {
                Line::Unknown
            }
        }
    }
}

// A kind of fault in words. It stays the number that a row has, since numbers that name no kind have words too.
fn fault_text(kind: u64) -> &'static str
    ensures { result.now ≡ fault_words kind }
{
    match kind {
        1 => "a number that's none",
        2 => "a quotient by 0",
        3 => "no such entry",
        4 => "a check that fails",
        _ => "an unknown fault",
    }
}

// A refusal in words, of any number, since those that name no refusal have a word too.
fn refusal_text(number: u64) -> &'static str
    ensures { result.now ≡ refusal_words number }
{
    match number {
        1 => "that is no command, or a program that isn't allowed",
        2 => "that isn't known yet",
        3 => "there's no such name",
        _ => "refused",
    }
}

// An alarm in words, of any kind as `fault_text`.
pub fn alarm_line(heap: Global, stmt: u64, kind: u64) -> Result<String, AllocError>
    ensures { IfOk result (λ s. string_bytes s ≡ alarm_words stmt kind) }
{
    let words = fault_text(kind);
    format!(in heap; "deed {stmt}: {words}")
}

// Where a variable lies when a run ends.
pub fn bounds_line(heap: Global, name: u8, lo: u64, hi: u64) -> Result<String, AllocError>
    ensures { IfOk result (λ s. string_bytes s ≡ bounds_words name lo hi) }
{
    format!(in heap; "{name}: {lo} to {hi}")
}

// A refusal in words, with its number, of any as `refusal_text`.
pub fn refusal_line(heap: Global, number: u64) -> Result<String, AllocError>
    ensures { IfOk result (λ s. string_bytes s ≡ refused_words number) }
{
    let words = refusal_text(number);
    format!(in heap; "refused: {words} ({number})")
}
