// The state of a loop from round to round.
ghost use Rattle.std.specs.Prelude.{◌≡◌, ◌+◌, ◌*◌, ◌≤◌};
ghost use Rattle.std.specs.List.Sorted.{IsNonDecreasing};
ghost use Rattle.analysis.specs.AbstractState.{widen};
ghost use Rattle.state.specs.Of.{as_abstract};
ghost use Rattle.fixpoint.specs.Rounds.{next_round};

use state::Abstract;
use thresholds::widen;

// So many rounds are joined before widening begins.
const JOINED: usize = 4;

// The most rounds of a loop: five, and for each bound two more than there are thresholds.
pub fn round_limit(vars: u64, arrays: u64, thresholds: usize) -> usize
    requires { (vars ≤ 64) × ((arrays ≤ 16) × (thresholds ≤ 11000)) }
    ensures { result ≡ 5 + 2 * (vars + arrays) * (2 + thresholds) }
{
    let known = (vars + arrays) as usize;
    5 + 2 * known * (2 + thresholds)
}

// A bound that the other state passes goes on to the next threshold.
pub fn widen_state(state: &mut Abstract, other: &Abstract, sorted: &[u64])
    ensures { IsNonDecreasing sorted.now →
        as_abstract state.new ≡ widen sorted.now (as_abstract state.old) (as_abstract other.now) }
{
    state.combine(other, |a, b| widen(a, b, sorted));
}

// The state goes on with what comes anew: joined in the first rounds, and from then on widened too.
pub fn next_state(state: &mut Abstract, next: &Abstract, round: usize, sorted: &[u64])
    ensures { IsNonDecreasing sorted.now →
        as_abstract state.new ≡ next_round sorted.now round (as_abstract state.old) (as_abstract next.now) }
{
    if round < JOINED {
        state.join(next);
        return;
    }
    let mut joined = *state;
    joined.join(next);
    widen_state(state, &joined, sorted);
}
