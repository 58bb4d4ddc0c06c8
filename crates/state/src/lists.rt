// Lists of intervals: look-ups that answer 0 to 0 past the end, writes that change nothing there, and what is done interval by interval.
ghost use Rattle.std.specs.Prelude.{◌≡◌, length, slice_set};
ghost use Rattle.interval.specs.Interval.{Interval as PlainInterval};
ghost use Rattle.interval.specs.Of.{as_interval};
ghost use Rattle.analysis.specs.AbstractState.{nth_interval, zip_with, all_within};
ghost use Rattle.state.specs.Of.{as_intervals, Computes};

use interval::Interval;

// The interval at a place; past the end 0 to 0.
pub fn interval_at(list: &[Interval], i: usize) -> Interval
    ensures { as_interval result ≡ nth_interval (as_intervals list.now) i }
{
    list.get(i).copied().unwrap_or(Interval::zero())
}

// Writes an interval at a place; past the end nothing changes. By index: a proof knows nothing of a list's elements after `get_mut`.
pub fn put_at(list: &mut [Interval], i: usize, s: Interval)
    ensures { as_intervals list.new ≡ slice_set (as_intervals list.old) i (as_interval s) }
{
    if i < list.len() {
        list[i] = s;
    }
}

// Puts what `f` makes of each interval and the one at its place in the other list. By index: a proof knows nothing of a list's elements
// after a loop over its `iter_mut` in a `zip`.
pub fn combine_into<F: Fn(Interval, Interval) -> Interval>(
    list: &mut [Interval],
    other: &[Interval],
    f: F,
)
    requires same_length { length list.old ≡ length other.now }
    requires callable { F.IsAlwaysCallable f }
    ensures { (op : PlainInterval → PlainInterval → PlainInterval) → Computes (F.post f) op →
        as_intervals list.new ≡ zip_with op (as_intervals list.old) (as_intervals other.now) }
{
    for (i, b) in other.iter().enumerate() {
        list[i] = f(list[i], *b);
    }
}

// Whether each interval lies within the one at its place in the other list.
pub fn lists_within(list: &[Interval], other: &[Interval]) -> bool
    requires { length list.now ≡ length other.now }
    ensures { result ≡ all_within (as_intervals list.now) (as_intervals other.now) }
{
    list.iter().zip(other).all(|(a, b)| a.within(*b))
}
