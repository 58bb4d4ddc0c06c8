// One program, run many times and analysed once.
use crate::counts::Counts;
use compare::{Missing, find_alarm, find_missing};
use execute::run_valid;
use findings::{Report, report_on};
use generate::Made;
use random::{Random, make_inputs};
use runner::Outcome;
use std::alloc::{AllocError, Global};
use valid::ValidProgram;

// Each loop of a run goes round at most so often.
pub const ROUNDS: u64 = 300;

// A run has fewer inputs than this.
const INPUTS: u64 = 16;

// A program, and inputs with which it shows what is missing.
#[derive(Drop)]
pub struct Failure {
    pub program: ValidProgram,
    pub inputs: Vec<u64>,
    pub missing: Missing,
}

// Marks the alarm that the run met, if it met one.
fn mark(report: &Report, outcome: &Outcome, met: &mut [bool]) {
    if let Outcome::Fault { stmt, kind } = outcome
        && let Some(i) = find_alarm(report.alarms.as_slice(), *stmt, *kind)
        && let Some(flag) = met.get_mut(i)
    {
        *flag = true;
    }
}

// Runs the program so often, and says what its report lacks, if anything.
pub fn try_program(
    heap: Global,
    made: Made,
    random: &mut Random,
    runs: u64,
    counts: &mut Counts,
) -> Result<Option<Failure>, AllocError> {
    let Made { program, ends } = made;
    let report = report_on(heap, &program)?;
    let mut met = vec![in heap; false; report.alarms.len()]?;
    for _ in 0..runs {
        let inputs = make_inputs(heap, random, ends.as_slice(), INPUTS)?;
        let outcome = run_valid(heap, &program, inputs.as_slice(), ROUNDS)?;
        counts.run(&outcome);
        if let Some(missing) = find_missing(&report, &outcome) {
            counts.miss();
            return Ok(Some(Failure {
                program,
                inputs,
                missing,
            }));
        }
        mark(&report, &outcome, met.as_mut_slice());
    }
    let count = met.iter().filter(|flag| **flag).count();
    counts.program(report.alarms.len() as u64, count as u64);
    Ok(None)
}
