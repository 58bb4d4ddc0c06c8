// One statement of an encoded program: what it opens, and what stands behind its head.
ghost use Rattle.std.specs.Prelude.{◌≡◌, ◌<◌, ◌≤◌, None, length, IfSome};

use crate::skip::{skip_expr, skip_exprs, skip_test};
use program::FIRST;
use scanner::read_number;

// How a statement goes on behind its own bytes.
#[derive(Clone, Copy)]
pub enum Opens {
    Nothing,
    Pair,
    Branch,
    Loop,
}

// A statement's number, if it has one; the tests in its condition; what it opens; and the bytes behind its head.
#[derive(Clone, Copy)]
pub struct Head<'a> {
    pub label: Option<u64>,
    pub tests: u64,
    pub opens: Opens,
    pub rest: &'a [u8],
}

impl<'a> Head<'a> {
    // The head of a statement without a number or a condition.
    fn bare(opens: Opens, rest: &'a [u8]) -> Head<'a>
        ensures shorter { length result.rest.now ≤ length rest.now }
        ensures label { result.label ≡ None }
    {
        Head {
            label: None,
            tests: 0,
            opens,
            rest,
        }
    }

    // The head of a statement with a condition, which stands at the beginning of these bytes.
    fn tested(opens: Opens, code: &'a [u8]) -> Option<Head<'a>>
        ensures { IfSome result (λ h. length h.rest.now ≤ length code.now) }
    {
        let (rest, tests) = skip_test(code)?;
        Some(Head {
            label: None,
            tests,
            opens,
            rest,
        })
    }
}

// The head of the statement whose first byte is this and behind whose number these bytes stand; none if there is no such kind. The match on the
// byte is the decoding itself, done here alone.
fn head_of<'a>(kind: u8, code: &'a [u8]) -> Option<Head<'a>>
    ensures { IfSome result (λ h. length h.rest.now ≤ length code.now) }
{
    match kind {
        1 => Some(Head::bare(Opens::Nothing, skip_expr(code.get(1..)?)?)),
        2 => Some(Head::bare(Opens::Nothing, skip_exprs(code.get(1..)?)?)),
        3 => Some(Head::bare(Opens::Nothing, code.get(17..).unwrap_or(&[]))),
        4 => Head::tested(Opens::Nothing, code),
        6 => Head::tested(Opens::Branch, code),
        7 => Head::tested(Opens::Loop, code),
        _ => None,
    }
}

// The statement at the beginning of these bytes.
pub fn head_at(code: &[u8]) -> Option<Head>
    ensures shorter { IfSome result (λ h. length h.rest.now < length code.now) }
    ensures label { IfSome result (λ h. IfSome h.label (λ n. 1 ≤ n)) }
{
    match code {
        [] => None,
        [0, rest @ ..] => Some(Head::bare(Opens::Nothing, rest)),
        [5, rest @ ..] => Some(Head::bare(Opens::Pair, rest)),
        [kind, ..] => {
            let label = read_number(code, 1)?;
            let head = head_of(*kind, code.get(9..)?)?;
            Some(Head {
                label: Some(label).filter(|n| *n >= FIRST),
                ..head
            })
        }
    }
}
