// The steps of a month, up to the first that is refused. s and t are the letters of the definitions: the steps of a day, and its uptake. They go together
// as two numbers and not as a struct, since they come from two places: how many steps a day has is a constant of `child`, and t is a figure of the month.
ghost use Rattle.std.specs.Prelude.{◌*◌};
ghost use Rattle.state.specs.State.{month_uptake_limit};
ghost use Rattle.steps.specs.Steps.{days_a_month, day_shares, days_shares};
ghost use Rattle.steps.specs.Internal.{Steppable, ReachedBy};

use super::share;
use kinetics::State;
use kinetics::divisor::MonthRates;
use refusal::Refusal;
use state::BURDEN_MOST;

const DAYS_A_MONTH: u64 = 30;

// A day of s steps that absorbs t.
fn day(rates: &MonthRates, state: &State, s: u64, t: u64) -> Result<State, Refusal>
    requires { Steppable (λ b. rates.now.rates) state.now s t 6_000_000_000 }
    ensures { ReachedBy (λ b. rates.now.rates) state.now (day_shares s t) t result }
{
    let mut here = *state;
    for k in 0..s {
        let u = share::share(s, t, k);
        let held = here.burden();
        if held + u > BURDEN_MOST {
            return Err(Refusal::BurdenTooLarge);
        }
        here = rates.step(&here, u);
    }
    Ok(here)
}

// Thirty days of s steps that absorb t each.
pub fn days(rates: &MonthRates, state: &State, s: u64, t: u64) -> Result<State, Refusal>
    requires { Steppable (λ b. rates.now.rates) state.now s t month_uptake_limit }
    ensures { ReachedBy (λ b. rates.now.rates) state.now (days_shares s t days_a_month) (days_a_month * t) result }
{
    let mut here = *state;
    for _ in 0..DAYS_A_MONTH {
        here = day(rates, &here, s, t)?;
    }
    Ok(here)
}
