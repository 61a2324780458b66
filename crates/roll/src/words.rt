// The words of a row on a roll: what becomes of it, its AGE or its number, and seven figures.
// Figures and cards are turned into words and back by functions, since no type on either side is of this crate.
ghost use Rattle.std.specs.Prelude.{◌≡◌, ◌≤◌};
ghost use Rattle.card.specs.Row.{read_kept};
ghost use Rattle.cardsite.specs.Start.{start_of};
ghost use Rattle.roll.specs.Kind.{kind_in};
ghost use Rattle.roll.specs.Read.{start_read};
ghost use Rattle.roll.specs.Words.{gap_word, word_of, value_in, card_words, start_words, card_in, start_in};

use crate::RowStart;
use card::Card;
use cardsite::RunningCard;
use lines::RowText;

pub const ROW_WORDS: usize = 9;

// A gap: every limit is far below it.
const GAP: u32 = u32::MAX;

// What becomes of a row, in its first word.
#[derive(Clone, Copy, Debug, PartialEq, Eq)]
pub enum Kind {
    Runs = 0,
    Skipped = 1,
    Refused = 2,
}

// A word that no row gave counts as a refused row's.
impl From<u32> for Kind {
    ghost from_gives = { λ word kind. kind ≡ kind_in word };

    fn from(word: u32) -> Kind {
        match word {
            0 => Kind::Runs,
            1 => Kind::Skipped,
            _ => Kind::Refused,
        }
    }
}

// A figure as a word, or a gap.
fn word_of(figure: Option<u64>) -> u32
    requires { word_of figure ≤ gap_word }
    ensures { result ≡ word_of figure }
{
    figure.unwrap_or(u64::from(GAP)) as u32
}

// The figure that a word is, or none at a gap.
fn value_in(word: u32) -> Option<u64>
    ensures { result ≡ value_in word }
{
    (word != GAP).then_some(u64::from(word))
}

// The words of a card that runs.
#[tactic(auto, using(crate::proofs::RowWords::running_fits), unfolding(crate::specs::Words::card_words))]
fn card_words(running: &RunningCard) -> [u32; ROW_WORDS]
    ensures { result ≡ card_words running.now.card }
{
    let card = &running.card;
    [
        Kind::Runs as u32,
        card.months() as u32,
        word_of(card.soil),
        word_of(card.dust),
        word_of(card.water),
        word_of(card.air),
        word_of(card.other),
        word_of(card.abssoil),
        word_of(card.absdust),
    ]
}

// The words of a row, by what becomes of it.
pub fn row_words(row: &RowText) -> [u32; ROW_WORDS]
    ensures { result ≡ start_words (start_of (read_kept row.now)) }
{
    match cardsite::start_row(row) {
        Ok(Some(running)) => card_words(&running),
        Ok(None) => [Kind::Skipped as u32, 0, 0, 0, 0, 0, 0, 0, 0],
        Err(refusal) => [Kind::Refused as u32, refusal.number(), 0, 0, 0, 0, 0, 0, 0],
    }
}

// The card that a row's words are.
#[tactic(auto, unfolding(crate::specs::Words::card_in))]
fn card_in(words: &[u32; ROW_WORDS]) -> Card
    ensures { result ≡ card_in words.now }
{
    let [_, age, soil, dust, water, air, other, abssoil, absdust] = *words;
    Card {
        age: Some(u64::from(age)),
        soil: value_in(soil),
        dust: value_in(dust),
        water: value_in(water),
        air: value_in(air),
        other: value_in(other),
        abssoil: value_in(abssoil),
        absdust: value_in(absdust),
    }
}

// What becomes of a row, by its words.
#[tactic(auto, unfolding(crate::specs::Words::start_in))]
pub fn start_in(words: &[u32; ROW_WORDS]) -> RowStart
    ensures { start_read result ≡ start_in words.now }
{
    let [kind, number, ..] = *words;
    match Kind::from(kind) {
        Kind::Runs => Ok(cardsite::start_card(&card_in(words))?),
        Kind::Skipped => Ok(None),
        Kind::Refused => Err(number),
    }
}
