// A group of up to 64 rows of a card, run together over one reading of their files: all to a month before any goes on to the next.
#![tactic(auto)]

ghost use Rattle.std.specs.Prelude.{◌≡◌, map, min};
ghost use Rattle.files.specs.Files.{files_decodes};
ghost use Rattle.files.specs.CallFiles.{files_in};
ghost use Rattle.steps.specs.Steps.{steps_a_day};
ghost use Rattle.child.specs.Outcomes.{course_in};
ghost use Rattle.survey.specs.Survey.{start_answer};
ghost use Rattle.roll.specs.Words.{rows_a_group, starts_in};
ghost use Rattle.roll.specs.Read.{start_read};
ghost use Rattle.group.specs.Group.{answered, roll_answers, group_answers, group_read};
ghost use Rattle.group.specs.Given.{answer_read, answers_read};
ghost use Rattle.group.specs.Internal.{end_answer};

use answers::WORDS;
use child::courses::Course;
use engine::room::Room;
use files::CallFiles;
use given::{GroupAnswers, RowAnswer};
use month::SharedMonth;
use roll::{GROUP_ROWS, Roll, RowStart};
use survey::ready::ReadyFiles;

pub mod answers; // answers.rt: the answers in words
mod courses; // courses.rt: how long a roll is run, and a month more of its rows' courses
pub mod given; // given.rt: what its rows answer
mod month; // month.rt: what all rows share in a month

// What a group of a text's rows answers beside the answers themselves.
#[derive(Clone, Copy, Debug, PartialEq, Eq)]
pub struct GroupRead {
    pub rows: u32, // taken of the text
    pub decodes: u32, // of blocks of the book
    pub next: usize, // where the row after them starts, or the text's length
}

// What a row answers whose course is at its end.
fn answer_of(start: &RowStart, course: &Course) -> RowAnswer
    ensures { answer_read result ≡ end_answer (start_read start.now) (course_in course.now) }
{
    match start {
        Ok(Some(_)) => Ok(Some(course.blood?)),
        Ok(None) => Ok(None),
        Err(number) => Err(*number),
    }
}

// What the rows of a roll answer over accepted files: all are run to a month, whose exposure and row they share, before any goes on to the next. The
// courses stand here alone, since a list of them that is handed out would lie on the stack twice. Both loops ask for the start by the row's number, and
// the second for the course: three lists meet, and std says nothing of a list after a `zip` of lent elements.
fn row_answers(files: ReadyFiles, roll: &Roll) -> [RowAnswer; GROUP_ROWS]
    ensures { answers_read (min roll.now.count rows_a_group) result ≡ map (start_answer steps_a_day files.entry.scenario.now files.entry.table.now) (starts_in (min roll.now.count rows_a_group) roll.now.words) }
{
    let birth = files.of_yard().course_at_birth();
    let mut courses = [birth; GROUP_ROWS];
    for done in 0..courses::last_month(roll) {
        let month = SharedMonth::after(files, done);
        for (i, course) in courses[..roll.rows()].iter_mut().enumerate() {
            *course = month.row_course(&roll.start_at(i), course);
        }
    }
    let mut answers = [Ok(None); GROUP_ROWS];
    for (row, answer) in answers[..roll.rows()].iter_mut().enumerate() {
        *answer = answer_of(&roll.start_at(row), &courses[row]);
    }
    answers
}

// What the rows of a roll answer over these files, and how many blocks of the book were decoded.
pub fn answers_of(files: &CallFiles, roll: &Roll) -> GroupAnswers
    ensures rows { answers_read result.count result.rows ≡ roll_answers steps_a_day (files_in files.now) roll.now.count roll.now.words }
    ensures decodes { result.decodes ≡ files_decodes (files_in files.now) }
{
    let mut room = Room::default();
    let mut decodes = 0;
    let rows = match room.accept_counted(files, &mut decodes) {
        Ok(yard) => {
            let ready = ReadyFiles {
                scenario: yard.scenario,
                table: yard.table,
            };
            row_answers(ready, roll)
        }
        Err(refusal) => [Err(refusal.number()); GROUP_ROWS],
    };
    let count = roll.rows();
    GroupAnswers {
        rows,
        count,
        decodes,
    }
}

// The rows of a roll over these files: their answers in words, and how many blocks of the book were decoded.
pub fn answer_roll(files: &CallFiles, roll: &Roll, words: &mut [u32; WORDS]) -> u32
    ensures value { result ≡ files_decodes (files_in files.now) }
    ensures answers_after { words.new ≡ answered (roll_answers steps_a_day (files_in files.now) roll.now.count roll.now.words) words.old }
{
    let answers = answers_of(files, roll);
    answers.put_words(words);
    answers.decodes
}

// The first rows of a text of rows, 64 at most, over these files: their answers in words, how many they are, and where the text goes on.
pub fn answer_text(files: &CallFiles, text: &[u8], words: &mut [u32; WORDS]) -> GroupRead
    ensures value { result ≡ group_read (files_in files.now) text.now }
    ensures answers_after { words.new ≡ answered (group_answers steps_a_day (files_in files.now) text.now) words.old }
{
    let mut roll = Roll::new();
    let next = roll.enrol_text(text);
    let decodes = answer_roll(files, &roll, words);
    GroupRead {
        rows: roll.count as u32,
        decodes,
        next,
    }
}
