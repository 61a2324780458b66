// How long the rows of a roll are run, and a month more of their courses.
ghost use Rattle.std.specs.Prelude.{◌≡◌, ◌+◌, ◌<◌, min};
ghost use Rattle.row.specs.Row.{last_month};
ghost use Rattle.steps.specs.Steps.{steps_a_day};
ghost use Rattle.child.specs.Outcomes.{course_in};
ghost use Rattle.cardsite.specs.Start.{Runs};
ghost use Rattle.roll.specs.Words.{rows_a_group};
ghost use Rattle.roll.specs.Read.{start_read};
ghost use Rattle.group.specs.Internal.{until_of, course_by, LastMonth};

use crate::month::SharedMonth;
use cardsite::RunningCard;
use child::courses::Course;
use exposure::limited::LimitedExposure;
use roll::{Roll, RowStart};
use survey::ready::ReadyFiles;

// How many months a row is run: up to its AGE, and none if it is skipped or refused.
fn until(start: &RowStart) -> u64
    ensures { result ≡ until_of (start_read start.now) }
{
    match start {
        Ok(Some(running)) => running.card.months(),
        Ok(None) | Err(_) => 0,
    }
}

// The last month that a row of the roll is run.
pub fn last_month(roll: &Roll) -> u64
    ensures { LastMonth roll.now.words (min roll.now.count rows_a_group) result }
{
    (0..roll.rows())
        .map(|i| until(&roll.start_at(i)))
        .max()
        .unwrap_or(0)
}

impl<'a> SharedMonth<'a> {
    // The month that follows so many.
    pub fn after(files: ReadyFiles<'a>, done: u64) -> SharedMonth<'a>
        requires { done < last_month }
        ensures files { result.files ≡ files.entry }
        ensures done { result.done ≡ done }
    {
        let month = done + 1;
        let yard = files.of_yard();
        let limited = yard.exposure(month);
        SharedMonth {
            files,
            done,
            exposure: limited.exposure,
            booked: yard.booked(month),
        }
    }

    // A month more of a card's course: past its AGE it rests, and so it does if it is refused.
    fn card_course(&self, running: &RunningCard, course: &Course) -> Course
        ensures { course_in course.now ≡ course_by steps_a_day self.now.files.scenario.now self.now.files.table.now (Runs running.now.card) self.now.done → course_in result ≡ course_by steps_a_day self.now.files.scenario.now self.now.files.table.now (Runs running.now.card) (self.now.done + 1) }
    {
        let age = running.card.months();
        if age <= self.done {
            return *course;
        }
        let own = LimitedExposure {
            exposure: cardsite::exposures::row_exposure(&running.card, self.exposure),
        };
        course.next_exposed(&own, &self.booked)
    }

    // A month more of a row's course: a skipped or refused row rests.
    #[tactic(auto, unfolding(crate::specs::Internal::course_by))]
    pub fn row_course(&self, start: &RowStart, course: &Course) -> Course
        ensures { course_in course.now ≡ course_by steps_a_day self.now.files.scenario.now self.now.files.table.now (start_read start.now) self.now.done → course_in result ≡ course_by steps_a_day self.now.files.scenario.now self.now.files.table.now (start_read start.now) (self.now.done + 1) }
    {
        match start {
            Ok(Some(running)) => self.card_course(running, course),
            Ok(None) | Err(_) => *course,
        }
    }
}
