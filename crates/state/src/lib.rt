// The child's state: the all-zero one, and whether what is handed in is a state that a month can follow. Any 64-bit numbers may stand in it.
#![tactic(auto)]

ghost use Rattle.std.specs.Prelude.{◌≡◌, min, length, get_or};
ghost use Rattle.numbers.specs.Sums.{sum_to};
ghost use Rattle.refusal.specs.Refusal.{number_in};
ghost use Rattle.kinetics.specs.Step.{burden};
ghost use Rattle.state.specs.State.{ledger_sum, is_state, state_refusal, zero_state};
ghost use Rattle.state.specs.Internal.{cap};

use kinetics::State;
use refusal::Refusal;
use row::LAST_MONTH;

pub const BURDEN_MOST: u64 = 50_000_000_000; // pg

// The month of the last state.
const LAST_STATE_MONTH: u64 = LAST_MONTH as u64;

const MONTH_UPTAKE_MOST: u64 = 180_000_000_000; // pg, that a month can bring

// Sums stop here, far above every limit and far below what 64 bits hold.
const CAP: u64 = 0x4000_0000_0000_0000;

// The sum, or CAP if it is more.
pub fn capped_sum(amounts: &[u64]) -> u64
    ensures { result ≡ min (sum_to (length amounts.now) (λ i. get_or amounts.now i 0)) cap }
{
    let mut sum = 0;
    for amount in amounts {
        sum = CAP.min(sum + CAP.min(*amount));
    }
    sum
}

fn capped_burden(state: &State) -> u64
    ensures { result ≡ min (burden state.now.lead) cap }
{
    capped_sum(&state.lead)
}

fn capped_ledgers(state: &State) -> u64
    ensures { result ≡ min (ledger_sum state.now) cap }
{
    capped_sum(&state.ledgers)
}

// Are its month, its lead and its ledgers those of a state?
#[tactic(auto, unfolding(crate::specs::State::is_state))]
fn is_state(state: &State) -> bool
    ensures { result ≡ is_state state.now }
{
    let held = capped_burden(state);
    let left = capped_ledgers(state);
    state.month <= LAST_STATE_MONTH
        && held <= BURDEN_MOST
        && held + left <= BURDEN_MOST + state.month * MONTH_UPTAKE_MOST
}

// Can a month follow? Else it is no state (20), or its last month is done (21).
#[tactic(auto, unfolding(crate::specs::State::state_refusal, numbers::specs::Choice::unless))]
pub fn check_state(state: &State) -> Result<(), Refusal>
    ensures number { number_in result ≡ state_refusal state.now }
{
    if !is_state(state) {
        return Err(Refusal::NoState);
    }
    if state.month == LAST_STATE_MONTH {
        return Err(Refusal::LastMonthDone);
    }
    Ok(())
}

// The all-zero state.
#[tactic(auto, unfolding(crate::specs::State::zero_state))]
pub fn zero_state() -> State
    ensures { result ≡ zero_state }
{
    State::default()
}
