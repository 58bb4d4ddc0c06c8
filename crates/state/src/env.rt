// What is known of variables and arrays, changed in place.
ghost use Rattle.std.specs.Prelude.{◌≡◌};
ghost use Rattle.interval.specs.Interval.{Interval as PlainInterval, join_interval};
ghost use Rattle.interval.specs.Of.{as_interval};
ghost use Rattle.analysis.specs.AbstractState.{nth_interval, zip_env};
ghost use Rattle.state.specs.Of.{as_env, Computes};
ghost use Rattle.state.specs.Change.{with_variable, with_stored, env_within};

use crate::lists::{combine_into, interval_at, lists_within, put_at};
use crate::types::Env;
use interval::Interval;

impl Env {
    // A variable's interval; 0 to 0 if there is no such variable.
    pub fn variable(&self, x: usize) -> Interval
        ensures { as_interval result ≡ nth_interval (as_env self.now).values x }
    {
        interval_at(&self.values, x)
    }

    // The interval of all elements of an array; 0 to 0 if there is no such array.
    pub fn array(&self, r: usize) -> Interval
        ensures { as_interval result ≡ nth_interval (as_env self.now).arrays r }
    {
        interval_at(&self.arrays, r)
    }

    // A variable gets an interval.
    pub fn put(&mut self, x: usize, s: Interval)
        ensures { as_env self.new ≡ with_variable (as_env self.old) x (as_interval s) }
    {
        put_at(&mut self.values, x, s);
    }

    // What is stored is joined with what the array has: the other elements stay.
    pub fn store(&mut self, r: usize, s: Interval)
        ensures { as_env self.new ≡ with_stored (as_env self.old) r (as_interval s) }
    {
        let old = self.array(r);
        put_at(&mut self.arrays, r, old.join(s));
    }

    // Interval by interval, the least that holds both.
    pub fn join(&mut self, other: &Env)
        ensures { as_env self.new ≡ zip_env join_interval (as_env self.old) (as_env other.now) }
    {
        self.combine(other, Interval::join);
    }

    // Interval by interval, what `f` makes of both.
    pub fn combine<F: Fn(Interval, Interval) -> Interval + Copy>(&mut self, other: &Env, f: F)
        requires { F.IsAlwaysCallable f }
        ensures { (op : PlainInterval → PlainInterval → PlainInterval) → Computes (F.post f) op →
            as_env self.new ≡ zip_env op (as_env self.old) (as_env other.now) }
    {
        combine_into(&mut self.values, &other.values, f);
        combine_into(&mut self.arrays, &other.arrays, f);
    }

    // Whether each interval lies within that of the other.
    pub fn lies_within(&self, other: &Env) -> bool
        ensures { result ≡ env_within (as_env self.now) (as_env other.now) }
    {
        lists_within(&self.values, &other.values) && lists_within(&self.arrays, &other.arrays)
    }
}
