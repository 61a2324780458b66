// The months of a run.
ghost use Rattle.std.specs.Prelude.{◌≡◌};
ghost use Rattle.steps.specs.Steps.{steps_a_day};
ghost use Rattle.child.specs.Months.{run_answer, run_list};
ghost use Rattle.child.specs.Outcomes.{run_answer_in};
ghost use Rattle.child.specs.Internal.{child_run};

use crate::given::Accepted;
use kinetics::State;
use refusal::Refusal;
use row::LAST_MONTH;

// Months of a whole run.
pub const MONTHS: usize = LAST_MONTH;

// What a run answers: the months done, the last month end, and the refusal that ended it, if one did.
#[derive(Clone, Copy, Debug, PartialEq, Eq)]
pub struct Run {
    pub months: u32,
    pub state: State,
    pub end: Result<(), Refusal>,
}

impl Accepted<'_> {
    // 84 months from a state, up to the first that is refused; the figure of each month done is written.
    pub fn months(&self, state: &State, blood: &mut [u32; MONTHS]) -> Run
        ensures value { run_answer_in result ≡ run_answer (child_run steps_a_day state.now self.now.scenario.now self.now.table.now) }
        ensures blood_after { blood.new ≡ run_list (child_run steps_a_day state.now self.now.scenario.now self.now.table.now) blood.old }
    {
        let mut here = *state;
        for (done, place) in blood.iter_mut().enumerate() {
            match self.month(&here) {
                Ok(end) => {
                    *place = end.blood;
                    here = end.state;
                }
                Err(refusal) => {
                    return Run {
                        months: done as u32,
                        state: here,
                        end: Err(refusal),
                    };
                }
            }
        }
        Run {
            months: MONTHS as u32,
            state: here,
            end: Ok(()),
        }
    }
}
