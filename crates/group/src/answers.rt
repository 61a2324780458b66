// The answers of a group in words, a pair for each row.
ghost use Rattle.std.specs.Prelude.{◌≡◌, take, length};
ghost use Rattle.group.specs.Group.{words_an_answer, answer_words, answered};
ghost use Rattle.group.specs.Given.{answer_read, answers_read};

use crate::given::{GroupAnswers, RowAnswer};
use roll::GROUP_ROWS;

// The words of a row's answer, and of a group's.
const ANSWER_WORDS: usize = 2;

pub const WORDS: usize = GROUP_ROWS * ANSWER_WORDS;

// What an answer's first word says of the second. Beside the kinds of a row on a roll, which have the same numbers but say what becomes of it before it
// is run: those have no figure, and are read back.
#[derive(Clone, Copy, Debug, PartialEq, Eq)]
enum Kind {
    Blood = 0,
    Skipped = 1,
    Refused = 2,
}

// The words of an answer. No `From`, since neither an answer, which is a `Result`, nor an array of words is this crate's own type.
fn words_of(answer: RowAnswer) -> [u32; ANSWER_WORDS]
    ensures { result ≡ answer_words (answer_read answer) }
{
    match answer {
        Ok(Some(blood)) => [Kind::Blood as u32, blood],
        Ok(None) => [Kind::Skipped as u32, 0],
        Err(number) => [Kind::Refused as u32, number],
    }
}

// Puts an answer's words into its place: a part of the group's, which is a slice, so its length is asked for.
fn put_answer(place: &mut [u32], answer: RowAnswer)
    requires { length place.old ≡ words_an_answer }
    ensures { place.new ≡ answer_words (answer_read answer) }
{
    place.copy_from_slice(&words_of(answer));
}

impl GroupAnswers {
    // The answers of the rows that there are.
    pub fn given(&self) -> &[RowAnswer]
        ensures { result.now ≡ take self.now.count self.now.rows }
    {
        &self.rows[..self.count]
    }

    // Puts the answers' words in front, a pair for each row, and keeps the places past them.
    // By number: tried with `chunks_exact_mut` and `zip`, and the proof did not close, since a loop over lent pairs has no word for the list that they are of.
    pub fn put_words(&self, words: &mut [u32; WORDS])
        ensures { words.new ≡ answered (answers_read self.now.count self.now.rows) words.old }
    {
        for (i, answer) in self.given().iter().enumerate() {
            let start = ANSWER_WORDS * i;
            put_answer(&mut words[start..start + ANSWER_WORDS], *answer);
        }
    }
}
