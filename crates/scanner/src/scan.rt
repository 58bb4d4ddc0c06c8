// Steps over the parts of a program: each scan answers where its part ends, or that no valid part stands there.
// A first byte is matched where it is read: an enum between would be a second match over the same numbers.
// The frames of the scans that call themselves stay small, since 16,379 statements or 16,369 expressions may stand in each other.
ghost use Rattle.std.specs.Prelude.{◌≡◌, ◌+◌, ◌^◌, ◌<◌, ◌≤◌, ◌&&◌, nat_le, nat_lt};
ghost use Rattle.program.specs.Basics.{limit};
ghost use Rattle.scanner.specs.Form.{Scanned};
ghost use Rattle.scanner.specs.Parts.{byte_form, number_form, label_form, range_form, expr_form, exprs_form};
ghost use Rattle.scanner.specs.Trees.{test_form, assign_form, store_form, input_form, head_form, stmt_form, one_numbered};
ghost use Rattle.std.specs.Option.{option_map};

use crate::bytes::{byte_at, read_number};
use program::{LIMIT, OPERATORS, TESTS};

fn is_number(n: u64) -> bool
    ensures { result ≡ nat_lt n limit }
{
    n < LIMIT
}

fn is_range(low: u64, high: u64) -> bool
    ensures { result ≡ (nat_le low high && nat_lt high limit) }
{
    low <= high && is_number(high)
}

// A byte below `bound`.
fn scan_byte(text: &[u8], pos: usize, bound: u64) -> Option<usize>
    ensures { Scanned (byte_form bound) text.now pos result }
{
    let b = byte_at(text, pos)?;
    if (b as u64) < bound {
        Some(pos + 1)
    } else {
        None
    }
}

// A number.
fn scan_number(text: &[u8], pos: usize) -> Option<usize>
    ensures { Scanned number_form text.now pos result }
{
    let n = read_number(text, pos)?;
    if is_number(n) { Some(pos + 8) } else { None }
}

// The number of a statement, which must be `label`.
fn scan_label(text: &[u8], pos: usize, label: u64) -> Option<usize>
    ensures { Scanned (label_form label) text.now pos result }
{
    let n = read_number(text, pos)?;
    if n == label { Some(pos + 8) } else { None }
}

// Two numbers, the second not below the first.
fn scan_range(text: &[u8], pos: usize) -> Option<usize>
    ensures { Scanned range_form text.now pos result }
{
    let low = read_number(text, pos)?;
    let high = read_number(text, pos + 8)?;
    if is_range(low, high) {
        Some(pos + 16)
    } else {
        None
    }
}

// Where a test ends, and how many more there may be.
#[derive(Clone, Copy)]
struct TestEnd {
    end: usize,
    room: u64,
}

// Where a statement ends, and the next one's number.
#[derive(Clone, Copy)]
pub struct StmtEnd {
    pub end: usize,
    pub next: u64,
}

// The end of a statement with the number `label`.
fn numbered(end: Option<usize>, label: u64) -> Option<StmtEnd>
    requires { label + 1 < 2 ^ 64 }
    ensures { result ≡ option_map (one_numbered label) end }
{
    let end = end?;
    Some(StmtEnd {
        end,
        next: label + 1,
    })
}

// The text of a program with so many variables and arrays.
#[derive(Clone, Copy)]
struct Scan<'a> {
    text: &'a [u8],
    vars: u64,
    arrays: u64,
}

impl<'a> Scan<'a> {
    // An expression.
    fn expr(&self, pos: usize) -> Option<usize>
        ensures { Scanned (expr_form self.now.vars self.now.arrays) self.now.text.now pos result }
    {
        match byte_at(self.text, pos)? {
            0 => scan_number(self.text, pos + 1),
            1 => scan_byte(self.text, pos + 1, self.vars),
            2 => {
                let left = scan_byte(self.text, pos + 1, OPERATORS)?;
                let right = self.expr(left)?;
                self.expr(right)
            }
            3 => {
                let index = scan_byte(self.text, pos + 1, self.arrays)?;
                self.expr(index)
            }
            _ => None,
        }
    }

    // Two expressions, one behind the other.
    fn exprs(&self, pos: usize) -> Option<usize>
        ensures { Scanned (exprs_form self.now.vars self.now.arrays) self.now.text.now pos result }
    {
        let second = self.expr(pos)?;
        self.expr(second)
    }

    // A test made of at most `room`.
    fn test(&self, pos: usize, room: u64) -> Option<TestEnd>
        ensures { Scanned (test_form self.now.vars self.now.arrays room) self.now.text.now pos result }
    {
        let tag = byte_at(self.text, pos)?;
        if room == 0 {
            return None;
        }
        match tag {
            0 | 1 => {
                let end = self.exprs(pos + 1)?;
                Some(TestEnd {
                    end,
                    room: room - 1,
                })
            }
            2 => self.test(pos + 1, room - 1),
            3 | 4 => {
                let first = self.test(pos + 1, room - 1)?;
                self.test(first.end, first.room)
            }
            _ => None,
        }
    }

    // A test of a check, a branch or a loop.
    fn condition(&self, pos: usize) -> Option<TestEnd>
        ensures { Scanned (test_form self.now.vars self.now.arrays 63) self.now.text.now pos result }
    {
        self.test(pos, TESTS)
    }

    // What a check, a branch or a loop begins with behind its first byte: its number and a test.
    fn head(&self, pos: usize, label: u64) -> Option<usize>
        ensures { Scanned (head_form self.now.vars self.now.arrays label) self.now.text.now pos result }
    {
        let test = scan_label(self.text, pos, label)?;
        let last = self.condition(test)?;
        Some(last.end)
    }

    // An assignment behind its first byte.
    fn assign(&self, pos: usize, label: u64) -> Option<usize>
        ensures { Scanned (assign_form self.now.vars self.now.arrays label) self.now.text.now pos result }
    {
        let variable = scan_label(self.text, pos, label)?;
        let value = scan_byte(self.text, variable, self.vars)?;
        self.expr(value)
    }

    // A store behind its first byte.
    fn store(&self, pos: usize, label: u64) -> Option<usize>
        ensures { Scanned (store_form self.now.vars self.now.arrays label) self.now.text.now pos result }
    {
        let array = scan_label(self.text, pos, label)?;
        let index = scan_byte(self.text, array, self.arrays)?;
        self.exprs(index)
    }

    // An input behind its first byte.
    fn input(&self, pos: usize, label: u64) -> Option<usize>
        ensures { Scanned (input_form self.now.vars label) self.now.text.now pos result }
    {
        let variable = scan_label(self.text, pos, label)?;
        let range = scan_byte(self.text, variable, self.vars)?;
        scan_range(self.text, range)
    }

    // A statement whose first number is `next`, with room for so many branches and loops, and so many loops, in each other.
    fn stmt(&self, pos: usize, next: u64, nesting: u64, loops: u64) -> Option<StmtEnd>
        requires { next ≤ pos }
        ensures { Scanned (stmt_form self.now.vars self.now.arrays nesting loops next) self.now.text.now pos result }
    {
        match byte_at(self.text, pos)? {
            0 => Some(StmtEnd { end: pos + 1, next }),
            1 => numbered(self.assign(pos + 1, next), next),
            2 => numbered(self.store(pos + 1, next), next),
            3 => numbered(self.input(pos + 1, next), next),
            4 => numbered(self.head(pos + 1, next), next),
            5 => {
                let first = self.stmt(pos + 1, next, nesting, loops)?;
                self.stmt(first.end, first.next, nesting, loops)
            }
            6 => {
                if nesting == 0 {
                    return None;
                }
                let yes = self.head(pos + 1, next)?;
                let no = self.stmt(yes, next + 1, nesting - 1, loops)?;
                self.stmt(no.end, no.next, nesting - 1, loops)
            }
            7 => {
                if nesting == 0 || loops == 0 {
                    return None;
                }
                let body = self.head(pos + 1, next)?;
                self.stmt(body, next + 1, nesting - 1, loops - 1)
            }
            _ => None,
        }
    }
}

// A statement of a program with so many variables and arrays, whose first number is `next`, with room for so many branches and loops,
// and so many loops, in each other.
pub fn scan_stmt(
    text: &[u8],
    pos: usize,
    vars: u64,
    arrays: u64,
    next: u64,
    nesting: u64,
    loops: u64,
) -> Option<StmtEnd>
    requires { next ≤ pos }
    ensures { Scanned (stmt_form vars arrays nesting loops next) text.now pos result }
{
    let scan = Scan { text, vars, arrays };
    scan.stmt(pos, next, nesting, loops)
}
