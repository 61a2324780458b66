// A child's course up to a month.
ghost use Rattle.std.specs.Prelude.{◌≡◌, List, ℕ};
ghost use Rattle.site.specs.declared.Scenario.{Scenario};
ghost use Rattle.steps.specs.Steps.{steps_a_day};
ghost use Rattle.child.specs.Course.{from_month, next_month, course_at};
ghost use Rattle.child.specs.Outcomes.{month_answer_in, course_in};
ghost use Rattle.child.specs.Internal.{MonthGiven};

use crate::MonthEnd;
use crate::booked::BookedMonth;
use crate::given::Accepted;
use exposure::limited::LimitedExposure;
use kinetics::State;
use refusal::Refusal;

// A child's course up to a month: the child at its end and its blood figure, 0 at birth. The first refusal ends a course: it has the child as it was before.
#[derive(Clone, Copy, Debug, PartialEq, Eq)]
pub struct Course {
    pub state: State,
    pub blood: Result<u32, Refusal>, // thousandths of ug/dL
}

impl Course {
    // What a month from a state answers, as a course.
    fn after(state: &State, month: Result<MonthEnd, Refusal>) -> Course
        ensures { course_in result ≡ from_month (month_answer_in state.now month) }
    {
        match month {
            Ok(end) => Course {
                state: end.state,
                blood: Ok(end.blood),
            },
            Err(refusal) => Course {
                state: *state,
                blood: Err(refusal),
            },
        }
    }

    // A month more, unless the course is refused.
    pub fn next_month(self, files: &Accepted) -> Course
        ensures { course_in result ≡ next_month steps_a_day files.now.scenario.now files.now.table.now (course_in self) }
    {
        match self.blood {
            Ok(_) => Course::after(&self.state, files.month(&self.state)),
            Err(_) => self,
        }
    }

    // A month more of a course whose month is given by its exposure and what the book has for it. Beside `next_month`, since rows that run together share
    // what the book gives a month.
    pub fn next_exposed(&self, exposure: &LimitedExposure, booked: &BookedMonth) -> Course
        ensures { (scenario : Scenario) (table : List ℕ) → ((course_in self.now).refusal ≡ 0 → MonthGiven scenario table self.now.state exposure.now.exposure booked.now.row booked.now.weight24) → course_in result ≡ next_month steps_a_day scenario table (course_in self.now) }
    {
        match self.blood {
            Ok(_) => Course::after(&self.state, booked.given_month(&self.state, exposure)),
            Err(_) => *self,
        }
    }
}

impl Accepted<'_> {
    // The course at birth.
    pub fn course_at_birth(&self) -> Course
        ensures { course_in result ≡ course_at steps_a_day self.now.scenario.now self.now.table.now 0 }
    {
        match self.birth() {
            Ok(state) => Course {
                state,
                blood: Ok(0),
            },
            Err(refusal) => Course {
                state: state::zero_state(),
                blood: Err(refusal),
            },
        }
    }

    // The course up to a month.
    pub fn course(&self, until: u32) -> Course
        ensures { course_in result ≡ course_at steps_a_day self.now.scenario.now self.now.table.now until }
    {
        let mut here = self.course_at_birth();
        for _ in 0..until {
            here = here.next_month(self);
        }
        here
    }
}
