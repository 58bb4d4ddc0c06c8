// What a report lacks: a fault of a run that is no alarm, or an end that lies outside.
ghost use Rattle.std.specs.Prelude.{◌≡◌, slice_index};
ghost use Rattle.session.specs.declared.rows.Row.TheVariants.{Alarm};
ghost use Rattle.findings.specs.Told.{InRow};
ghost use Rattle.compare.specs.Missing.{Decides, AlarmFound, Outside, Finds};

use findings::Report;
use runner::Outcome;
use session::Row;
use std::fmt;

// What a run shows that the report lacks.
#[derive(Clone, Copy)]
pub enum Missing {
    // A fault of a kind at a statement that is no alarm.
    NoAlarm { stmt: u64, kind: u64 },
    // A variable's value at the end that is not within its bounds.
    NoEnd { variable: usize, value: u64 },
}

// By the number of a kind, as `find_alarm` is asked and a row has it.
fn is_alarm(row: Row, stmt: u64, kind: u64) -> bool
    ensures { Decides result (row ≡ Alarm stmt kind) }
{
    matches!(row, Row::Alarm { stmt: d, kind: k } if d == stmt && u64::from(k) == kind)
}

// Where the fault stands among the alarms; any number may be asked for, one that is no fault's too.
pub fn find_alarm(alarms: &[Row], stmt: u64, kind: u64) -> Option<usize>
    ensures { AlarmFound alarms.now stmt kind result }
{
    alarms.iter().position(|row| is_alarm(*row, stmt, kind))
}

fn lies_in(row: Option<Row>, value: u64) -> bool
    ensures { Decides result (InRow row value) }
{
    matches!(row, Some(Row::Bounds { lo, hi }) if (lo..=hi).contains(&value))
}

// A variable's value; 0 if there is no such variable.
fn value_of(values: &[u64], x: usize) -> u64
    ensures { result ≡ slice_index values.now x }
{
    values.get(x).copied().unwrap_or(0)
}

// The first variable whose value does not lie within its bounds.
fn outside(ends: &[Option<Row>], values: &[u64]) -> Option<usize>
    ensures { Outside ends.now values.now result }
{
    for (x, end) in ends.iter().enumerate() {
        if !lies_in(*end, value_of(values, x)) {
            return Some(x);
        }
    }
    None
}

// What the run shows that the report lacks, if anything.
pub fn find_missing(report: &Report, outcome: &Outcome) -> Option<Missing>
    ensures { Finds report.now outcome.now result }
{
    match outcome {
        Outcome::OutOfRounds => None,
        &Outcome::Fault { stmt, kind } => match find_alarm(&report.alarms, stmt, kind) {
            Some(_) => None,
            None => Some(Missing::NoAlarm { stmt, kind }),
        },
        Outcome::Finished(state) => {
            outside(&report.ends, &state.values).map(|variable| Missing::NoEnd {
                variable,
                value: value_of(&state.values, variable),
            })
        }
    }
}

impl fmt::Display for Missing {
    fn fmt<W: fmt::Write>(&self, f: &mut fmt::Formatter<W>) -> fmt::Result {
        match *self {
            Missing::NoAlarm { stmt, kind } => write!(f, "fault {kind} at statement {stmt}"),
            Missing::NoEnd { variable, value } => write!(
                f,
                "{value} at the end of variable {variable}"
            ),
        }
    }
}
