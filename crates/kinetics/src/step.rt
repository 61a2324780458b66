// One step of the seven compartments (B-8, B-9).
ghost use Rattle.std.specs.Prelude.{◌≡◌, ◌+◌, ◌*◌, ◌/◌, ◌≤◌, ◌<◌};
ghost use Rattle.row.specs.Row.{unit};
ghost use Rattle.kinetics.specs.Step.{burden, returned, inflow, solved_plasma, new_amount, next, burden_limit};
ghost use Rattle.numbers.specs.Bounds.{Is};
ghost use Rattle.kinetics.specs.Internal.{Ready};

use super::divisor::MonthRates;
use super::{
    COMPARTMENTS, COMPARTMENTS_AT, CORTICAL, FAECES_AT, KIDNEY, LIVER, OTHER, PLASMA_AT, RED_CELLS,
    SKIN_AT, State, TRABECULAR, URINE_AT,
};
use row::UNIT;

// A step that can be taken: a month's rates, the child before it, and what it absorbs.
#[derive(Clone, Copy)]
struct Step<'a> {
    month: &'a MonthRates,
    state: &'a State,
    uptake: u64,
    ghost ready: { Ready month.now.rates month.now.divisors state.now uptake },
}

// Point 3: what leaves the body at a rate.
fn excreted(rate: u64, amount: u64) -> u64
    requires { rate * amount ≤ 7_500_000_000_000_000_000 }
    ensures { Is (rate * amount / unit) 75_000_000_000 result }
{
    rate * amount / UNIT
}

impl Step<'_> {
    // Point 1: what compartment i returns to the plasma.
    fn returned(&self, i: usize) -> u64
        requires { i < 6 }
        ensures { Is (returned self.now.month.now.rates self.now.state.now.lead i) burden_limit result }
    {
        self.month.rates.back[i] * self.state.lead[i + COMPARTMENTS_AT]
            / self.month.divisors.compartments[i]
    }

    // Point 1: n.
    fn inflow(&self) -> u64
        ensures { Is (inflow self.now.month.now.rates self.now.state.now.lead self.now.uptake) burden_limit result }
    {
        let returned = (0..COMPARTMENTS).map(|i| self.returned(i)).sum::<u64>();
        self.state.lead[PLASMA_AT] + self.uptake + returned
    }

    // Point 1: p (B-8).
    fn solved_plasma(&self) -> u64
        ensures { result ≡ solved_plasma self.now.month.now.rates self.now.state.now.lead self.now.uptake }
    {
        self.inflow() * UNIT / self.month.divisors.plasma
    }

    // Point 2: the new amount of compartment i (B-9).
    fn new_amount(&self, p: u64, i: usize) -> u64
        requires solved { p ≡ solved_plasma self.now.month.now.rates self.now.state.now.lead self.now.uptake }
        requires within { i < 6 }
        ensures { Is (new_amount self.now.month.now.rates self.now.state.now.lead (solved_plasma self.now.month.now.rates self.now.state.now.lead self.now.uptake) i) 150_000_000_000 result }
    {
        (self.state.lead[i + COMPARTMENTS_AT] * UNIT + self.month.rates.out[i] * p)
            / self.month.divisors.compartments[i]
    }
}

impl State {
    // The seven compartments together.
    pub fn burden(&self) -> u64
        requires { burden self.now.lead ≤ burden_limit }
        ensures { result ≡ burden self.now.lead }
    {
        self.lead.iter().sum()
    }
}

impl MonthRates {
    // One step that absorbs this uptake.
    pub fn step(&self, state: &State, uptake: u64) -> State
        requires { Ready self.now.rates self.now.divisors state.now uptake }
        ensures { result ≡ next self.now.rates state.now uptake }
    {
        let step = Step {
            month: self,
            state,
            uptake,
        };
        let p = step.solved_plasma();
        let red_cells = step.new_amount(p, RED_CELLS);
        let liver = step.new_amount(p, LIVER);
        let kidney = step.new_amount(p, KIDNEY);
        let other = step.new_amount(p, OTHER);
        let trabecular = step.new_amount(p, TRABECULAR);
        let cortical = step.new_amount(p, CORTICAL);
        let urine = excreted(self.rates.urine, p);
        let faeces = excreted(self.rates.faeces, liver);
        let skin = excreted(self.rates.skin, other);
        let amounts = red_cells + liver + kidney + other + trabecular + cortical;
        let total = state.burden() + uptake;
        let plasma = total - amounts - (urine + faeces + skin);
        let urine_ledger = state.ledgers[URINE_AT] + urine;
        let faeces_ledger = state.ledgers[FAECES_AT] + faeces;
        let skin_ledger = state.ledgers[SKIN_AT] + skin;
        State {
            month: state.month,
            lead: [
                plasma, red_cells, liver, kidney, other, trabecular, cortical,
            ],
            ledgers: [urine_ledger, faeces_ledger, skin_ledger],
        }
    }
}
