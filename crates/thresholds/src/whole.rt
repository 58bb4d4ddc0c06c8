// All thresholds of a program, sorted.
ghost use Rattle.std.specs.Prelude.{◌≤◌, length};
ghost use Rattle.program.specs.Syntax.{Stmt};
ghost use Rattle.thresholds.specs.Collecting.{length_thresholds, all_thresholds, SameLoans, Writes, Collectable, Gathered, Sorted};

use crate::table::Collector;

impl<'a> Collector<'a> {
    // Those of the arrays' lengths, behind the others.
    fn push_lengths(&mut self, lengths: &[u64])
        ensures same { SameLoans self.old self.new }
        ensures writes { Writes (length_thresholds lengths.now) self.old self.new }
    {
        for n in lengths {
            self.push_two(n.saturating_sub(1), *n);
        }
    }
}

// Those of a statement and of the arrays' lengths, at the front of the table.
fn gather(text: &[u8], body: usize, lengths: &[u64], out: &mut [u64]) -> usize
    ensures gathered { (d : Stmt) → Collectable text.now body lengths.now out.old d →
        Gathered (all_thresholds d lengths.now) out.old out.new result }
    ensures within { result ≤ length out.new }
{
    let mut collector = Collector {
        text,
        slots: out,
        count: 0,
    };
    let _ = collector.collect_stmt(body, text.len());
    collector.push_lengths(lengths);
    collector.count
}

// Puts the thresholds of the statement at `body` and of the arrays' lengths to the front of the table, in ascending order, and says how many they are.
pub fn collect(text: &[u8], body: usize, lengths: &[u64], out: &mut [u64]) -> usize
    ensures sorted { (d : Stmt) → Collectable text.now body lengths.now out.old d →
        Sorted (all_thresholds d lengths.now) out.old out.new result }
    ensures within { result ≤ length out.new }
{
    let count = gather(text, body, lengths, out);
    out[..count].sort_unstable();
    count
}
