// The nearest thresholds in a sorted list, and widening to them.
ghost use Rattle.std.specs.Prelude.{◌≡◌, ◌≤◌};
ghost use Rattle.std.specs.List.Sorted.{IsNonDecreasing};
ghost use Rattle.interval.specs.Interval.{threshold_above, threshold_below, widen_interval};
ghost use Rattle.interval.specs.Of.{as_interval};
ghost use Rattle.thresholds.specs.Nearest.{IsAbove, IsBelow};

use interval::Interval;
use program::LIMIT;

// The largest number.
const TOP: u64 = LIMIT - 1;

// The threshold above in an ascending list; in another any number. Test, side and what stands for none are others than below: one function
// for both would take its whole body as parameters.
fn find_above(n: u64, sorted: &[u64]) -> u64
    ensures { IsNonDecreasing sorted.now → IsAbove n sorted.now result }
{
    let i = sorted.partition_point(|m| *m < n);
    sorted.get(i).copied().unwrap_or(TOP).min(TOP)
}

// The least threshold that is n or more, or the largest number.
pub fn above(n: u64, sorted: &[u64]) -> u64
    ensures exact { IsNonDecreasing sorted.now → result ≡ threshold_above n sorted.now }
    ensures small { result ≤ 4294967295 }
    ensures reaches { n ≤ 4294967295 → n ≤ result }
{
    find_above(n, sorted).max(n).min(TOP)
}

// The threshold below in an ascending list; in another any number.
fn find_below(n: u64, sorted: &[u64]) -> u64
    ensures { IsNonDecreasing sorted.now → IsBelow n sorted.now result }
{
    let i = sorted.partition_point(|m| *m <= n);
    sorted[..i].last().copied().unwrap_or(0)
}

// The greatest threshold that is n or less, or 0.
pub fn below(n: u64, sorted: &[u64]) -> u64
    ensures exact { IsNonDecreasing sorted.now → result ≡ threshold_below n sorted.now }
    ensures small { result ≤ n }
{
    find_below(n, sorted).min(n)
}

// The interval a, where a bound that b passes goes on to the next threshold. `Interval::widen_to` would be given both thresholds; here only those
// of bounds that are passed are looked for.
pub fn widen(a: Interval, b: Interval, sorted: &[u64]) -> Interval
    ensures { IsNonDecreasing sorted.now → as_interval result ≡ widen_interval sorted.now (as_interval a) (as_interval b) }
{
    Interval {
        lo: if b.lo < a.lo {
            below(b.lo, sorted)
        } else {
            a.lo
        },
        hi: if a.hi < b.hi {
            above(b.hi, sorted)
        } else {
            a.hi
        },
    }
}
