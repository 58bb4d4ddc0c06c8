// Thresholds collected by a walk over the bytes of expressions, tests and statements.
// The walks go as deep as programs nest, so each call holds numbers only. What stands at `pos` has at most `left` bytes, which bounds the depth.
// A match on the first byte is the decoding itself: with an enum of what stands there the same numbers would be matched twice.
ghost use Rattle.std.specs.Prelude.{◌≡◌, ◌≤◌, ◌<◌, ◌⊎◌, length, MatchOption};
ghost use Rattle.program.specs.Syntax.{Expr, Test, Stmt};
ghost use Rattle.program.specs.Encoding.{encode_expr, encode_test, encode_stmt};
ghost use Rattle.analysis.specs.Thresholds.{expr_thresholds, test_thresholds, stmt_thresholds};
ghost use Rattle.thresholds.specs.Collecting.{Begins, SameLoans, Walk};

use crate::table::Collector;
use bytes_at::word_at;

impl<'a> Collector<'a> {
    // The first byte of what stands at `pos`, unless no bytes are left or the text ends before.
    fn first_at(&self, pos: usize, left: usize) -> Option<u8>
        ensures { MatchOption result ((left ≡ 0) ⊎ (length self.now.text.now ≤ pos)) (Begins self.now.text.now pos left) }
    {
        if left == 0 {
            return None;
        }
        self.text.get(pos).copied()
    }

    fn collect_expr(&mut self, pos: usize, left: usize) -> usize
        ensures same { SameLoans self.old self.new }
        ensures walks { (e : Expr) → Walk self.old pos left self.new result (encode_expr e) (expr_thresholds e) }
    {
        let Some(tag) = self.first_at(pos, left) else {
            return pos;
        };
        match tag {
            0 => {
                let n = word_at(self.text, pos + 1);
                self.push_around(n);
                pos + 9
            }
            1 => pos + 2,
            2 => {
                let mid = self.collect_expr(pos + 2, left - 1);
                self.collect_expr(mid, left - 1)
            }
            3 => self.collect_expr(pos + 2, left - 1),
            _ => pos,
        }
    }

    fn collect_test(&mut self, pos: usize, left: usize) -> usize
        ensures same { SameLoans self.old self.new }
        ensures walks { (x : Test) → Walk self.old pos left self.new result (encode_test x) (test_thresholds x) }
    {
        let Some(tag) = self.first_at(pos, left) else {
            return pos;
        };
        match tag {
            0 | 1 => {
                let mid = self.collect_expr(pos + 1, left - 1);
                self.collect_expr(mid, left - 1)
            }
            2 => self.collect_test(pos + 1, left - 1),
            3 | 4 => {
                let mid = self.collect_test(pos + 1, left - 1);
                self.collect_test(mid, left - 1)
            }
            _ => pos,
        }
    }

    // Statements that hold no others: nothing, assignments, stores, inputs, checks.
    fn collect_simple(&mut self, tag: u8, pos: usize, left: usize) -> usize
        requires { Begins self.old.text.now pos left tag }
        ensures same { SameLoans self.old self.new }
        ensures walks { (d : Stmt) → tag < 5 → Walk self.old pos left self.new result (encode_stmt d) (stmt_thresholds d) }
    {
        match tag {
            0 => pos + 1,
            1 => self.collect_expr(pos + 10, left - 1),
            2 => {
                let mid = self.collect_expr(pos + 10, left - 1);
                self.collect_expr(mid, left - 1)
            }
            3 => {
                let low = word_at(self.text, pos + 10);
                let high = word_at(self.text, pos + 18);
                self.push_two(low, high);
                pos + 26
            }
            4 => self.collect_test(pos + 9, left - 1),
            _ => pos,
        }
    }

    // The statement at `pos`: its end.
    pub fn collect_stmt(&mut self, pos: usize, left: usize) -> usize
        ensures same { SameLoans self.old self.new }
        ensures walks { (d : Stmt) → Walk self.old pos left self.new result (encode_stmt d) (stmt_thresholds d) }
    {
        let Some(tag) = self.first_at(pos, left) else {
            return pos;
        };
        match tag {
            5 => {
                let mid = self.collect_stmt(pos + 1, left - 1);
                self.collect_stmt(mid, left - 1)
            }
            6 => {
                let first = self.collect_test(pos + 9, left - 1);
                let second = self.collect_stmt(first, left - 1);
                self.collect_stmt(second, left - 1)
            }
            7 => {
                let body = self.collect_test(pos + 9, left - 1);
                self.collect_stmt(body, left - 1)
            }
            _ => self.collect_simple(tag, pos, left),
        }
    }
}
