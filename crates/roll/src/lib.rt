// The roll of a group: what becomes of up to 64 rows of a card before any file is looked at, kept between the reading of the text and the run.
#![tactic(auto)]

ghost use Rattle.std.specs.Prelude.{◌≡◌, ◌+◌, ◌<◌, min};
ghost use Rattle.roll.specs.Read.{start_read};
ghost use Rattle.roll.specs.Words.{rows_a_group, start_at};
ghost use Rattle.roll.specs.Enrol.{with_row, enrolled, rolled, count_with_last, rolled_last};
ghost use Rattle.roll.specs.Internal.{TextEnrolled};
ghost use Rattle.roll.specs.Blank.{blank};

use cardsite::RunningCard;
use lines::{Reader, RowText};
use words::ROW_WORDS;

mod words; // words.rt: the words of a row

// The rows of a group.
pub const GROUP_ROWS: usize = 64;

pub const ROLL_WORDS: usize = GROUP_ROWS * ROW_WORDS;

// What becomes of a row: no card where it is skipped, or the number that refuses it.
pub type RowStart = Result<Option<RunningCard>, u32>;

// The rows on a roll, nine words for each: the laws speak of the words, and 64 cards would take more than three times their memory. The words behind
// the rows are free, so there is no `PartialEq`, which would compare them.
#[derive(Drop, Clone, Debug, Default)]
pub struct Roll {
    pub words: [u32; ROLL_WORDS],
    pub count: usize, // 64 at most, and a greater one counts as 64
}

impl Roll {
    // A roll with no row.
    #[tactic(auto, using(crate::proofs::RollRows::no_row))]
    pub fn new() -> Roll
        ensures { result ≡ blank }
    {
        Roll::default()
    }

    // How many rows are on it.
    pub fn rows(&self) -> usize
        ensures { result ≡ min self.now.count rows_a_group }
    {
        self.count.min(GROUP_ROWS)
    }

    // What becomes of row i: no card where it is skipped. Words that no row gave are checked as a card is; a number among them may be any, so a
    // refusal is a number here.
    #[tactic(auto, using(crate::proofs::RollRows::row_at))]
    pub fn start_at(&self, i: usize) -> RowStart
        requires { i < rows_a_group }
        ensures { start_read result ≡ start_at self.now.words i }
    {
        let (rows, _) = self.words.as_chunks::<ROW_WORDS>();
        words::start_in(&rows[i])
    }

    // Puts a row behind the others, at its place in the list: std does not say what a list is after a write through `as_chunks_mut`.
    #[tactic(auto, using(numbers::proofs::Parts::placed_lent))]
    fn enrol(&mut self, row: &RowText)
        requires { self.old.count < rows_a_group }
        ensures count_after { self.new.count ≡ self.old.count + 1 }
        ensures words_after { self.new.words ≡ with_row self.old.count row.now self.old.words }
    {
        let start = ROW_WORDS * self.count;
        self.words[start..start + ROW_WORDS].copy_from_slice(&words::row_words(row));
        self.count += 1;
    }

    // Reads on through a piece of a text up to the end of a row, puts that row behind the others, and answers how many bytes it has read. A full
    // roll takes none.
    #[tactic(auto, unfolding(crate::specs::Enrol::enrolled, crate::specs::Enrol::rolled))]
    pub fn enrol_next(&mut self, reader: &mut Reader, piece: &[u8]) -> usize
        ensures read { record { reader = reader.new; used = result; count = self.new.count } ≡ enrolled reader.old piece.now self.old.count }
        ensures words_after { self.new.words ≡ rolled reader.old piece.now self.old.count self.old.words }
    {
        if GROUP_ROWS <= self.count {
            return 0;
        }
        let walk = reader.to_row_end(piece);
        if let Some(row) = walk.row {
            self.enrol(&row);
        }
        walk.used
    }

    // Puts the last row behind the others, if only the end of the text ends it. A full roll takes none.
    #[tactic(auto, unfolding(crate::specs::Enrol::count_with_last, crate::specs::Enrol::rolled_last))]
    pub fn enrol_last(&mut self, reader: &Reader)
        ensures count_after { self.new.count ≡ count_with_last reader.now self.old.count }
        ensures words_after { self.new.words ≡ rolled_last reader.now self.old.count self.old.words }
    {
        if reader.begun && self.count < GROUP_ROWS {
            self.enrol(&reader.row);
        }
    }

    // Puts the first rows of a text of rows, 64 at most, in place of those that were on it. Answers where the row after them starts, or the text's
    // length. A step goes up to the end of a row: no index counts it.
    pub fn enrol_text(&mut self, text: &[u8]) -> usize
        ensures { TextEnrolled text.now self.new.words (record { count = self.new.count; next = result }) }
    {
        self.count = 0;
        let mut reader = Reader::before_row();
        let mut at = 0;
        while at < text.len() && self.count < GROUP_ROWS {
            at += self.enrol_next(&mut reader, &text[at..]);
        }
        self.enrol_last(&reader);
        at
    }
}
