// The engine: birth, the month call and the run, on site files, foods blocks and rate books of any length and content.
#![tactic(auto)]

ghost use Rattle.std.specs.Prelude.{◌≡◌, length};
ghost use Rattle.steps.specs.Steps.{steps_a_day};
ghost use Rattle.child.specs.Months.{run_answer, run_list};
ghost use Rattle.child.specs.Outcomes.{birth_answer_in, month_answer_in, run_answer_in};
ghost use Rattle.files.specs.CallFiles.{files_in};
ghost use Rattle.engine.specs.Birth.{birth_of};
ghost use Rattle.engine.specs.Month.{month_of};
ghost use Rattle.engine.specs.Run.{run_of};
ghost use Rattle.engine.specs.Internal.{started_in};

use child::MonthEnd;
use child::months::Run;
use files::CallFiles;
use kinetics::State;
use refusal::Refusal;
use room::Room;

pub mod room; // room.rt: what a call reads its files into

// Birth: the child at month 0.
pub fn birth(files: &CallFiles) -> Result<State, Refusal>
    ensures { birth_answer_in result ≡ birth_of (files_in files.now) }
{
    let mut room = Room::default();
    let accepted = room.accept(files)?;
    accepted.birth()
}

// One month: the child a month later, and its blood figure.
pub fn month(state: &State, files: &CallFiles) -> Result<MonthEnd, Refusal>
    ensures { month_answer_in state.now result ≡ month_of steps_a_day state.now (files_in files.now) }
{
    let mut room = Room::default();
    let accepted = room.accept(files)?; // before the refusals of the child
    accepted.month(state)
}

// A run that starts: lengths, a list of 84 places, files and birth let it.
fn started_run(files: &CallFiles, blood: &mut [u32]) -> Result<Run, Refusal>
    ensures value { started_in result ≡ run_answer (run_of steps_a_day (files_in files.now) (length blood.old)) }
    ensures blood_after { blood.new ≡ run_list (run_of steps_a_day (files_in files.now) (length blood.old)) blood.old }
{
    files.check_lengths()?;
    let Some(figures) = blood.as_mut_array() else {
        return Err(Refusal::WrongListLength);
    };
    let mut room = Room::default();
    let accepted = room.accept(files)?; // after those of the lengths and of the list
    let child = accepted.birth()?;
    Ok(accepted.months(&child, figures))
}

// The run: birth and 84 months, the blood figure of each month done written into the lent list.
pub fn run(files: &CallFiles, blood: &mut [u32]) -> Run
    ensures value { run_answer_in result ≡ run_answer (run_of steps_a_day (files_in files.now) (length blood.old)) }
    ensures blood_after { blood.new ≡ run_list (run_of steps_a_day (files_in files.now) (length blood.old)) blood.old }
{
    match started_run(files, blood) {
        Ok(run) => run,
        Err(refusal) => Run {
            months: 0,
            state: state::zero_state(),
            end: Err(refusal),
        },
    }
}
