// What the C interface for firmware makes of the engine's calls: a state as words, and birth, the month and the run into the memory that a
// caller lends. jurengate_c exports its calls, and include/jurengate.h declares them.
#![tactic(auto)]

ghost use Rattle.std.specs.Prelude.{◌≡◌, length};
ghost use Rattle.steps.specs.Steps.{steps_a_day};
ghost use Rattle.engine.specs.Birth.{birth_of};
ghost use Rattle.engine.specs.Month.{month_of};
ghost use Rattle.child.specs.Months.{run_answer, run_list};
ghost use Rattle.engine.specs.Run.{run_of};
ghost use Rattle.files.specs.CallFiles.{files_in};
ghost use Rattle.jurengate.specs.Words.{words_of, state_of};

use child::MonthEnd;
use files::CallFiles;
use kinetics::State;

// Words of a state.
pub const WORDS: usize = 11;

// A state in words. This and the next are no `From`, since neither the state nor an array of words is this crate's own type.
fn words_of(state: &State) -> [u64; WORDS]
    ensures { result ≡ words_of state.now }
{
    let State {
        month,
        lead,
        ledgers,
    } = *state;
    let [
        plasma,
        red_cells,
        liver,
        kidney,
        other,
        trabecular,
        cortical,
    ] = lead;
    let [urine, faeces, skin] = ledgers;
    [
        month, plasma, red_cells, liver, kidney, other, trabecular, cortical, urine, faeces, skin,
    ]
}

// The state of eleven words.
fn state_of(words: &[u64; WORDS]) -> State
    ensures { result ≡ state_of words.now }
{
    let [
        month,
        plasma,
        red_cells,
        liver,
        kidney,
        other,
        trabecular,
        cortical,
        urine,
        faeces,
        skin,
    ] = *words;
    State {
        month,
        lead: [
            plasma, red_cells, liver, kidney, other, trabecular, cortical,
        ],
        ledgers: [urine, faeces, skin],
    }
}

// Birth: the child at month 0, all zeros if it is refused. Each of these three is two calls in C, with a foods block and without, so they
// answer the refusal's number, 0 for none.
pub fn birth_into(files: &CallFiles, state: &mut [u64; WORDS]) -> u32
    ensures value { result ≡ (birth_of (files_in files.now)).refusal }
    ensures state_after { state.new ≡ words_of (birth_of (files_in files.now)).state }
{
    let born = engine::birth(files);
    let child = born.unwrap_or(state::zero_state());
    *state = words_of(&child);
    refusal::number_in(&born)
}

// One month: the child a month later and its blood figure; if it is refused, the child as it was and 0.
pub fn month_into(files: &CallFiles, state: &mut [u64; WORDS], blood: &mut u32) -> u32
    ensures value { result ≡ (month_of steps_a_day (state_of state.old) (files_in files.now)).refusal }
    ensures state_after { state.new ≡ words_of (month_of steps_a_day (state_of state.old) (files_in files.now)).state }
    ensures blood_after { blood.new ≡ (month_of steps_a_day (state_of state.old) (files_in files.now)).blood }
{
    let child = state_of(state);
    let ended = engine::month(&child, files);
    let end = ended.unwrap_or(MonthEnd {
        state: child,
        blood: 0,
    });
    *state = words_of(&end.state);
    *blood = end.blood;
    refusal::number_in(&ended)
}

// The run: birth and 84 months, the figure of each month done written into the list.
pub fn run_into(
    files: &CallFiles,
    blood: &mut [u32],
    state: &mut [u64; WORDS],
    months: &mut u32,
) -> u32
    ensures value { result ≡ (run_of steps_a_day (files_in files.now) (length blood.old)).refusal }
    ensures blood_after { blood.new ≡ run_list (run_of steps_a_day (files_in files.now) (length blood.old)) blood.old }
    ensures state_after { state.new ≡ words_of (run_of steps_a_day (files_in files.now) (length blood.old)).state }
    ensures months_after { months.new ≡ (run_answer (run_of steps_a_day (files_in files.now) (length blood.old))).months }
{
    let run = engine::run(files, blood);
    *state = words_of(&run.state);
    *months = run.months;
    refusal::number_in(&run.end)
}
