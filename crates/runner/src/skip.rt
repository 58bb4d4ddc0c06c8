// Steps over expressions, tests and statements that are not to be run: where each ends.
// Each match on a first byte is the reading itself: an enum between would be a second match over the same numbers.
ghost use Rattle.runner.specs.Skipping.{ExprEnds, ExprsEnd, TestEnds, StmtEnds};

use bytes_at::byte_at;

/// The end of the expression at `pos`, of at most `left` bytes.
pub fn skip_expr(text: &[u8], pos: usize, left: usize) -> usize
    ensures { ExprEnds text.now pos left result }
{
    if left == 0 {
        return pos;
    }
    match byte_at(text, pos) {
        0 => pos.saturating_add(9),
        1 => pos.saturating_add(2),
        2 => {
            let mid = skip_expr(text, pos.saturating_add(2), left - 1);
            skip_expr(text, mid, left - 1)
        }
        3 => skip_expr(text, pos.saturating_add(2), left - 1),
        _ => pos,
    }
}

/// The end of two expressions, one behind the other.
pub fn skip_exprs(text: &[u8], pos: usize, left: usize) -> usize
    ensures { ExprsEnd text.now pos left result }
{
    let mid = skip_expr(text, pos, left);
    skip_expr(text, mid, left)
}

/// The end of a test.
pub fn skip_test(text: &[u8], pos: usize, left: usize) -> usize
    ensures { TestEnds text.now pos left result }
{
    if left == 0 {
        return pos;
    }
    let next = pos.saturating_add(1);
    match byte_at(text, pos) {
        0 | 1 => skip_exprs(text, next, left - 1),
        2 => skip_test(text, next, left - 1),
        3 | 4 => {
            let mid = skip_test(text, next, left - 1);
            skip_test(text, mid, left - 1)
        }
        _ => pos,
    }
}

/// The end of a statement.
pub fn skip_stmt(text: &[u8], pos: usize, left: usize) -> usize
    ensures { StmtEnds text.now pos left result }
{
    if left == 0 {
        return pos;
    }
    match byte_at(text, pos) {
        0 => pos.saturating_add(1),
        1 => skip_expr(text, pos.saturating_add(10), left - 1),
        2 => skip_exprs(text, pos.saturating_add(10), left - 1),
        3 => pos.saturating_add(26),
        4 => skip_test(text, pos.saturating_add(9), left - 1),
        5 => {
            let second = skip_stmt(text, pos.saturating_add(1), left - 1);
            skip_stmt(text, second, left - 1)
        }
        6 => {
            let first = skip_test(text, pos.saturating_add(9), left - 1);
            let second = skip_stmt(text, first, left - 1);
            skip_stmt(text, second, left - 1)
        }
        7 => {
            let body = skip_test(text, pos.saturating_add(9), left - 1);
            skip_stmt(text, body, left - 1)
        }
        _ => pos,
    }
}
