// Makes random programs, runs each on random inputs, and looks for what the analyser does not tell.

#![tactic(auto)]

mod counts;
mod smallest;
mod trial;

use anyhow::anyhow;
use counts::Counts;
use generate::make_program;
use random::Random;
use script::hex_text;
use smallest::shrink_failure;
use std::env;
use trial::{Failure, try_program};

// A progress line for every so many programs.
const EVERY: u64 = 5000;

// So many runs of each program, unless it is said otherwise.
const RUNS: u64 = 20;

// A number among the arguments, or this one.
fn number(rt: &HostRuntime, place: usize, otherwise: u64) -> anyhow::Result<u64> {
    match env::args(rt)?.nth(place) {
        Some(text) => Ok(text.as_str().parse::<u64>()?),
        None => Ok(otherwise),
    }
}

fn show(rt: &HostRuntime, failure: &Failure) -> anyhow::Result<()> {
    let heap = rt.alloc();
    println!(rt; "missing: {}", failure.missing)?;
    println!(rt; "inputs: {:?}", failure.inputs)?;
    println!(rt; "program: {}", hex_text(heap, failure.program.program())?)?;
    Ok(())
}

// So many programs, up to the first that shows something missing; how many do.
fn test(rt: &HostRuntime, seed: u64, count: u64, runs: u64) -> anyhow::Result<u64> {
    let heap = rt.alloc();
    let mut random = Random::new(seed);
    let mut counts = Counts::default();
    for i in 0..count {
        if i > 0 && i % EVERY == 0 {
            println!(rt; "{i} programs")?;
        }
        let Some(made) = make_program(heap, &mut random)? else {
            counts.discard();
            continue;
        };
        if let Some(failure) = try_program(heap, made, &mut random, runs, &mut counts)? {
            println!(rt; "program {} shows something missing", i + 1)?;
            show(rt, &shrink_failure(heap, failure)?)?;
            break;
        }
    }
    println!(rt; "{counts}")?;
    Ok(counts.missing)
}

fn main(rt: HostRuntime) -> anyhow::Result<()> {
    let seed = number(&rt, 1, 1)?;
    let count = number(&rt, 2, 1000)?;
    let runs = number(&rt, 3, RUNS)?;
    if test(&rt, seed, count, runs)? > 0 {
        return Err(anyhow!("something is missing"));
    }
    Ok(())
}
