// A child of accepted files: its birth, a month of it, the months of a run, and its course up to a month.
#![tactic(auto)]

ghost use Rattle.std.specs.Prelude.{◌≡◌, ◌≤◌};
ghost use Rattle.row.specs.Row.{last_month, row_of};
ghost use Rattle.state.specs.State.{state_refusal};
ghost use Rattle.uptake.specs.Laws.{day_limit};
ghost use Rattle.steps.specs.Steps.{steps_a_day};
ghost use Rattle.child.specs.Birth.{newborn, newborn_refusal, birth_answer};
ghost use Rattle.child.specs.Month.{exposure_in, saturation_month, child_month};
ghost use Rattle.child.specs.Outcomes.{birth_answer_in, month_answer_in};
ghost use Rattle.child.specs.Internal.{stepped_month, exposed_month, given_month};

use booked::BookedMonth;
use exposure::limited::LimitedExposure;
use given::Accepted;
use intake::passed::PassedIntakes;
use kinetics::State;
use kinetics::divisor::MonthRates;
use refusal::Refusal;
use state::BURDEN_MOST;

pub mod booked; // booked.rt: what the rate book gives a month
pub mod courses; // courses.rt: a child's course up to a month
pub mod given; // given.rt: what accepted files give a child
pub mod months; // months.rt: the months of a run

const STEPS_A_DAY: u64 = 6;

// The row of the month whose body weight the saturation is given for.
pub const SATURATION_MONTH: usize = 24;

// What a month leaves: the child a month later, and its blood figure.
#[derive(Clone, Copy, Debug, PartialEq, Eq)]
pub struct MonthEnd {
    pub state: State,
    pub blood: u32, // thousandths of ug/dL
}

impl Accepted<'_> {
    // Birth: refused if the child's burden is too large.
    pub fn birth(&self) -> Result<State, Refusal>
        ensures { birth_answer_in result ≡ birth_answer (newborn_refusal self.now.scenario.now self.now.table.now) (newborn self.now.scenario.now self.now.table.now) }
    {
        let table = self.table;
        let row = row::table::row_at(table, 0);
        let mother = exposure::mother_of(self.scenario);
        let child = blood::birth::birth_state(&row, mother);
        let held = state::capped_sum(&child.lead);
        if held > BURDEN_MOST {
            return Err(Refusal::BurdenTooLarge);
        }
        Ok(child)
    }

    // What a child is exposed to in a month, 1 to 84 (its range is asked for as by `uptake::age::age_of`).
    pub fn exposure(&self, month: u64) -> LimitedExposure
        requires { (1 ≤ month) × (month ≤ last_month) }
        ensures { result.exposure ≡ exposure_in self.now.scenario.now month }
    {
        let age = uptake::age::age_of(month);
        let exposure = exposure::exposure_at(self.scenario, age as usize);
        LimitedExposure { exposure }
    }

    // What the rate book gives a month.
    pub fn booked(&self, month: u64) -> BookedMonth
        requires { month ≤ last_month }
        ensures row { result.row ≡ row_of self.now.table.now month }
        ensures weight24 { result.weight24 ≡ (row_of self.now.table.now saturation_month).body_weight }
    {
        let table = self.table;
        let row = row::table::row_at(table, month as usize);
        let row24 = row::table::row_at(table, SATURATION_MONTH);
        BookedMonth {
            row,
            weight24: row24.body_weight,
        }
    }

    // A month: refusals 20, 21, 9, 22.
    pub fn month(&self, state: &State) -> Result<MonthEnd, Refusal>
        ensures { month_answer_in state.now result ≡ child_month steps_a_day state.now self.now.scenario.now self.now.table.now }
    {
        state::check_state(state)?;
        let month = state.month + 1;
        let exposure = self.exposure(month);
        let booked = self.booked(month);
        booked.exposed_month(state, &exposure)
    }
}

impl BookedMonth {
    // The month's steps of a child that takes up t a day.
    fn stepped_month(&self, state: &State, t: u64) -> Result<MonthEnd, Refusal>
        requires { (state_refusal state.now ≡ 0) × (t ≤ day_limit) }
        ensures { month_answer_in state.now result ≡ stepped_month steps_a_day (λ b. self.now.row.rates) state.now self.now.row t }
    {
        let rates = MonthRates::new(self.row.rates);
        let last = steps::days::days(&rates, state, STEPS_A_DAY, t)?;
        let blood = blood::figure::blood_figure(&self.row, &last);
        let month = state.month + 1;
        Ok(MonthEnd {
            state: State { month, ..last },
            blood,
        })
    }

    // The month of a child with this exposure, whose state can have one.
    fn exposed_month(&self, state: &State, exposure: &LimitedExposure) -> Result<MonthEnd, Refusal>
        requires { state_refusal state.now ≡ 0 }
        ensures { month_answer_in state.now result ≡ exposed_month steps_a_day state.now exposure.now.exposure self.now.row self.now.weight24 }
    {
        let passed = PassedIntakes::new(exposure)?;
        let weights = self.body_weights();
        let t = uptake::day::day_uptake(&passed, weights);
        self.stepped_month(state, t)
    }

    // The month of a child with this exposure: refusals 20, 21, 9, 22. `Accepted::month` is no call of it, since it has to check the state before it asks
    // for the exposure: only the month after a checked state is one of the 84.
    fn given_month(&self, state: &State, exposure: &LimitedExposure) -> Result<MonthEnd, Refusal>
        ensures { month_answer_in state.now result ≡ given_month steps_a_day state.now exposure.now.exposure self.now.row self.now.weight24 }
    {
        state::check_state(state)?;
        self.exposed_month(state, exposure)
    }
}
