// A row of a batch card over a site file, a foods block or none, and a rate book, of any length and content: its answer.
#![tactic(auto)]

ghost use Rattle.std.specs.Prelude.{◌≡◌};
ghost use Rattle.card.specs.Row.{read_kept};
ghost use Rattle.cardsite.specs.Start.{start_of};
ghost use Rattle.files.specs.CallFiles.{files_in};
ghost use Rattle.steps.specs.Steps.{steps_a_day};
ghost use Rattle.survey.specs.RowAnswer.{answer_in, blood_in};
ghost use Rattle.survey.specs.Survey.{card_answer, start_answer, kept_answer, row_answer};

use cardsite::RunningCard;
use child::given::Accepted;
use engine::room::Room;
use files::CallFiles;
use lines::RowText;
use ready::ReadyFiles;
use refusal::Refusal;

pub mod ready; // ready.rt: what accepted files give the rows of a card

impl<'a> ReadyFiles<'a> {
    // What they give a child of the yard itself.
    pub fn of_yard(&self) -> Accepted<'a>
        ensures scenario { result.scenario ≡ self.now.scenario }
        ensures table { result.table ≡ self.now.table }
    {
        Accepted {
            scenario: self.scenario,
            table: self.table,
        }
    }

    // The blood figure at the AGE of a card that runs, in thousandths of ug/dL: birth, and the months up to it. Not inlined, so that what reading the
    // files takes is off the stack by then.
    #[inline(never)]
    fn card_blood(&self, running: &RunningCard) -> Result<u32, Refusal>
        ensures { blood_in result ≡ card_answer steps_a_day self.now.scenario.now self.now.table.now running.now.card }
    {
        let scenario = cardsite::row_scenario(&running.card, self.scenario);
        let own = Accepted {
            scenario: &scenario,
            table: self.table,
        };
        let age = running.card.months();
        own.course(age as u32).blood
    }

    // What a row answers over accepted files: no figure where it is skipped.
    fn answer(&self, kept: &RowText) -> Result<Option<u32>, Refusal>
        ensures { answer_in result ≡ start_answer steps_a_day self.now.scenario.now self.now.table.now (start_of (read_kept kept.now)) }
    {
        match cardsite::start_row(kept)? {
            Some(running) => Ok(Some(self.card_blood(&running)?)),
            None => Ok(None),
        }
    }
}

// What a row answers, of what is kept of it. `ReadyFiles` is made here and in `group`, and is no method of `Accepted`: it follows from what the files are,
// which a child's type does not hold.
pub fn kept_answer(files: &CallFiles, kept: &RowText) -> Result<Option<u32>, Refusal>
    ensures { answer_in result ≡ kept_answer steps_a_day (files_in files.now) kept.now }
{
    let mut room = Room::default();
    let yard = room.accept(files)?;
    let ready = ReadyFiles {
        scenario: yard.scenario,
        table: yard.table,
    };
    ready.answer(kept)
}

// What a row answers, of its bytes: a line feed is one like others.
pub fn row_answer(files: &CallFiles, row: &[u8]) -> Result<Option<u32>, Refusal>
    ensures { answer_in result ≡ row_answer steps_a_day (files_in files.now) row.now }
{
    let kept = RowText::of(row);
    kept_answer(files, &kept)
}
