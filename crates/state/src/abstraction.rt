// Abstract states, changed in place: nothing is done where nothing comes.
ghost use Rattle.std.specs.Prelude.{◌≡◌};
ghost use Rattle.interval.specs.Interval.{Interval as PlainInterval, interval};
ghost use Rattle.interval.specs.Of.{as_interval};
ghost use Rattle.analysis.specs.Reach.{reached};
ghost use Rattle.analysis.specs.AbstractState.{merge, join, within};
ghost use Rattle.state.specs.Of.{as_abstract, Computes};
ghost use Rattle.state.specs.Change.{initial_env, variable_in, array_in, put_in, store_in, cut_in};

use crate::types::{Abstract, Env};
use interval::Interval;
use program::{ARRAYS, VARIABLES};

impl Abstract {
    // All variables and elements are 0.
    pub fn initial() -> Abstract
        ensures { as_abstract result ≡ reached initial_env }
    {
        let zero = Interval::zero();
        Abstract::Reached(Env {
            values: [zero; VARIABLES as usize],
            arrays: [zero; ARRAYS as usize],
        })
    }

    // A variable's interval; 0 to 0 if there is no such variable, or nothing comes here.
    pub fn variable(&self, x: usize) -> Interval
        ensures { as_interval result ≡ variable_in (as_abstract self.now) x }
    {
        match self {
            Abstract::Unreached => Interval::zero(),
            Abstract::Reached(w) => w.variable(x),
        }
    }

    // The interval of all elements of an array; 0 to 0 if there is no such array, or nothing comes here.
    pub fn array(&self, r: usize) -> Interval
        ensures { as_interval result ≡ array_in (as_abstract self.now) r }
    {
        match self {
            Abstract::Unreached => Interval::zero(),
            Abstract::Reached(w) => w.array(r),
        }
    }

    // A variable gets an interval.
    pub fn put(&mut self, x: usize, s: Interval)
        ensures { as_abstract self.new ≡ put_in (as_abstract self.old) x (as_interval s) }
    {
        if let Abstract::Reached(w) = self {
            w.put(x, s);
        }
    }

    // What is stored is joined with what the array has: the other elements stay.
    pub fn store(&mut self, r: usize, s: Interval)
        ensures { as_abstract self.new ≡ store_in (as_abstract self.old) r (as_interval s) }
    {
        if let Abstract::Reached(w) = self {
            w.store(r, s);
        }
    }

    // A variable, if one is named, is cut to what lies from `low` to `high`; nothing comes here if that is empty.
    pub fn cut(&mut self, x: Option<usize>, low: u64, high: u64)
        ensures { as_abstract self.new ≡ cut_in x (as_abstract self.old) (interval low high) }
    {
        if let (Some(x), Abstract::Reached(w)) = (x, &mut *self) {
            match w.variable(x).cut(low, high) {
                None => *self = Abstract::Unreached,
                Some(s) => w.put(x, s),
            }
        }
    }

    // Interval by interval, what `f` makes of both; what one holds where nothing comes in the other.
    #[tactic(auto, unfolding(analysis::specs::AbstractState::merge))]
    pub fn combine<F: Fn(Interval, Interval) -> Interval + Copy>(&mut self, other: &Abstract, f: F)
        requires { F.IsAlwaysCallable f }
        ensures { (op : PlainInterval → PlainInterval → PlainInterval) → Computes (F.post f) op →
            as_abstract self.new ≡ merge op (as_abstract self.old) (as_abstract other.now) }
    {
        let Abstract::Reached(v) = other else { return };
        match self {
            Abstract::Unreached => *self = *other,
            Abstract::Reached(w) => w.combine(v, f),
        }
    }

    // What either holds.
    pub fn join(&mut self, other: &Abstract)
        ensures { as_abstract self.new ≡ join (as_abstract self.old) (as_abstract other.now) }
    {
        self.combine(other, Interval::join);
    }

    // Whether the other holds all that this holds.
    #[tactic(auto, unfolding(analysis::specs::AbstractState::within))]
    pub fn lies_within(&self, other: &Abstract) -> bool
        ensures { result ≡ within (as_abstract self.now) (as_abstract other.now) }
    {
        match (self, other) {
            (Abstract::Unreached, _) => true,
            (Abstract::Reached(_), Abstract::Unreached) => false,
            (Abstract::Reached(w), Abstract::Reached(v)) => w.lies_within(v),
        }
    }
}
