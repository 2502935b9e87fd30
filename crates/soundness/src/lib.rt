// What a sound state asks of the positions, the priorities and the counts, clause by clause, of any values.
#![tactic(auto)]

ghost use Rattle.std.specs.Prelude.{◌≡◌, suc, ◌+◌, ◌-◌, pos, neg_ℤ};
ghost use Rattle.std.specs.Int.Signed.{le_z};
ghost use Rattle.rules.specs.Words.{each, tally};
ghost use Rattle.rules.specs.Names.{max_stations};
ghost use Rattle.rules.specs.List.{is_at};
ghost use Rattle.rules.specs.State.{position_in, priority_in, count_in, in_bound, few_low_in, empty_in};

use record::{Record, entry};
use state::State;

// Whether each station stands at an outside record of its own, in a list whose first later record is at later.
pub fn placed(list: &[u8], later: usize, state: &State) -> bool
    ensures { result ≡ each (λ j. is_at list.now later 0 j (position_in state.now.positions j)) state.now.n }
{
    (0..state.n).all(|j| targets::outside(
        list,
        later,
        j,
        entry(&state.positions, j as usize, 0) as usize,
    ))
}

// Whether each station's priority plus its count is at most b.
pub fn bounded(state: &State) -> bool
    ensures { result ≡ each (λ j. in_bound state.now.b (priority_in state.now.priorities j) (count_in state.now.counts j)) state.now.n }
{
    (0..state.n as usize).all(|j| within(
        entry(&state.priorities, j, 0),
        entry(&state.counts, j, 0),
        state.b,
    ))
}

// Whether a priority plus its count is at most b. The sum may be more than 16 bits hold.
fn within(priority: i16, count: u16, b: u8) -> bool
    ensures { result ≡ in_bound b priority count }
{
    priority as i32 + count as i32 <= b as i32
}

// Whether for each k from 1 to n at most n-k of n priorities are -k or lower.
pub fn few_low(state: &State) -> bool
    ensures { result ≡ each (λ i. few_low_in state.now.priorities state.now.n (suc i)) state.now.n }
{
    let n = state.n;
    for i in 0..n {
        let k = i + 1;
        if (n as usize) < low_count(state, k) + (k as usize) {
            return false;
        }
    }
    true
}

// How many of n priorities are -k or lower.
fn low_count(state: &State, k: u8) -> usize
    ensures { result ≡ tally (λ j. le_z (priority_in state.now.priorities j) (neg_ℤ (pos k))) state.now.n }
{
    let mut count = 0;
    for j in 0..state.n as usize {
        if low(state, j, k) {
            count += 1;
        }
    }
    count
}

// Whether station j's priority is -k or lower.
fn low(state: &State, j: usize, k: u8) -> bool
    ensures { result ≡ le_z (priority_in state.now.priorities j) (neg_ℤ (pos k)) }
{
    entry(&state.priorities, j, 0) <= -(k as i16)
}

// Whether the positions, priorities and counts from n on are 0.
pub fn empty(state: &State) -> bool
    ensures { result ≡ each (λ i. empty_in state.now.positions state.now.priorities state.now.counts (state.now.n + i)) (max_stations - state.now.n) }
{
    (state.n as usize..Record::MAX_STATIONS).all(|j| empty_at(state, j))
}

// Whether place j for a station is empty.
fn empty_at(state: &State, j: usize) -> bool
    ensures { result ≡ empty_in state.now.positions state.now.priorities state.now.counts j }
{
    entry(&state.positions, j, 0) == 0
        && entry(&state.priorities, j, 0) == 0
        && entry(&state.counts, j, 0) == 0
}
