// What the analyser tells of a program: its alarms, and where each variable lies at the end.

#![tactic(auto)]

ghost use Rattle.std.specs.Prelude.{◌≡◌, ◌<◌, IfOk, vec_len};
ghost use Rattle.program.specs.Syntax.{Program};
ghost use Rattle.session.specs.Sessions.{Holds};
ghost use Rattle.valid.specs.Held.{held_program};
ghost use Rattle.findings.specs.Told.{TellsAll};
ghost use Rattle.findings.specs.Ends.{first_of, EndsAt, AllEnds};

use session::{Answer, Row, Session};
use std::alloc::{AllocError, Global};
use valid::ValidProgram;

#[derive(Drop)]
pub struct Report {
    pub alarms: Vec<Row>,
    // Of each variable the row of its bounds, as the session answers it; none if no run comes to an end.
    pub ends: Vec<Option<Row>>,
}

// The first row of an answer.
fn first_row(answer: &Answer) -> Option<Row>
    ensures { result ≡ first_of answer.now.rows.items }
{
    answer.rows.first().copied()
}

// Where a variable lies at the end.
fn end_of(heap: Global, session: &mut Session, x: u8) -> Result<Option<Row>, AllocError>
    ensures { IfOk result (λ row. (p : Program) → Holds session.old p → x < p.vars → Holds session.new p × EndsAt p x row) }
{
    let answer = session.at_end(heap, x)?;
    Ok(first_row(&answer))
}

// Where each variable lies at the end. A loop, as each answer changes the session.
fn ends_of(heap: Global, session: &mut Session, vars: u8) -> Result<Vec<Option<Row>>, AllocError>
    ensures { IfOk result (λ v. (p : Program) → Holds session.old p → vars ≡ p.vars → AllEnds p vars v.items) }
{
    let mut ends = Vec::new(heap);
    for x in 0..vars {
        let row = end_of(heap, session, x)?;
        ends.push(row)?;
    }
    Ok(ends)
}

// What the analyser tells of the program: how every run ends.
pub fn report_on(heap: Global, program: &ValidProgram) -> Result<Report, AllocError>
    ensures tells { IfOk result (λ rep. TellsAll rep (held_program program.now)) }
    ensures rows { IfOk result (λ rep. vec_len rep.ends ≡ (held_program program.now).vars) }
{
    let mut session = Session::new(heap)?;
    session.tell(heap, program.bytes())?;
    let told = session.alarms(heap)?;
    let ends = ends_of(heap, &mut session, program.variables())?;
    let Answer { rows: alarms, .. } = told;
    Ok(Report { alarms, ends })
}
