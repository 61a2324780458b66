// A card over a site file's fields.
#![tactic(auto)]

ghost use Rattle.std.specs.Prelude.{◌≡◌, false, ◌+◌, ◌≤◌, ◌<◌};
ghost use Rattle.site.specs.Fields.{field_count, at, limits};
ghost use Rattle.site.specs.Put.{put_from};
ghost use Rattle.card.specs.RowRead.{Accepted};
ghost use Rattle.card.specs.Row.{read_kept};
ghost use Rattle.cardsite.specs.Over.{over, over_limit};
ghost use Rattle.cardsite.specs.Start.{start_of, start_with};
ghost use Rattle.cardsite.specs.Fields.{given, row_fields, row_scenario};

use card::Card;
use lines::RowText;
use refusal::Refusal;
use site::limits::LIMITS;
use site::places::{AGES, FIELDS};
use site::{DustSource, Scenario, WaterSource, places};

pub mod exposures; // exposures.rt: what a row makes of an exposure
mod running; // running.rt: a card that runs

pub use running::RunningCard;

// Where the absorbed percentages of dust and soil stand: 2 and 3 are the places of dust and soil among the media.
const ABSORBED_DUST: usize = places::ABSORBED + 2;

const ABSORBED_SOIL: usize = places::ABSORBED + 3;

// Is a figure over the limit of the field at a place?
#[tactic(auto, unfolding(site::specs::Fields::limits))]
fn over(place: usize, figure: Option<u64>) -> bool
    requires { place < field_count }
    ensures { result ≡ over (at limits place) figure }
{
    let limit = u64::from(LIMITS[place]);
    figure.is_some_and(|n| limit < n)
}

// Is one of the card's figures over its site limit?
#[tactic(auto, unfolding(crate::specs::Over::over_limit))]
fn over_limit(card: &Card) -> bool
    ensures { result ≡ over_limit card.now }
{
    over(places::SOIL, card.soil)
        || over(places::DUST, card.dust)
        || over(places::CONSTANT, card.water)
        || over(places::AIR, card.air)
        || over(places::ALTERNATE, card.other)
        || over(ABSORBED_SOIL, card.abssoil)
        || over(ABSORBED_DUST, card.absdust)
}

// A figure, where one is given, at each of so many places from one on.
#[tactic(auto, using(crate::proofs::Limited::within_small))]
fn put_given(fields: &mut [u32; FIELDS], from: usize, count: usize, figure: Option<u64>)
    requires { (from + count ≤ field_count) × (from < field_count) × (over (at limits from) figure ≡ false) }
    ensures { fields.new ≡ given (put_from from count) figure fields.old }
{
    if let Some(n) = figure {
        site::put::figure_from(fields, from, count, n as u32);
    }
}

// A card over a site file's fields. "Both modes are 0 even at a gap": dust is a given figure, and water a constant one.
#[tactic(auto, using(crate::proofs::Limited::within), unfolding(crate::specs::Fields::row_fields, crate::specs::Fields::media_fields, site::specs::Put::put_from))]
fn put_row(card: &Card, fields: &mut [u32; FIELDS])
    requires { over_limit card.now ≡ false }
    ensures { fields.new ≡ row_fields card.now fields.old }
{
    put_given(fields, places::SOIL, AGES, card.soil_or_dust());
    put_given(fields, places::DUST, AGES, card.dust_or_soil());
    put_given(fields, places::AIR, AGES, card.air);
    put_given(fields, places::ALTERNATE, AGES, card.other);
    put_given(fields, places::CONSTANT, 1, card.water);
    put_given(fields, ABSORBED_SOIL, 1, card.abssoil);
    put_given(fields, ABSORBED_DUST, 1, card.absdust);
    fields[places::DUST_MODE] = DustSource::Given as u32;
    fields[places::WATER_MODE] = WaterSource::Constant as u32;
}

// The scenario of a row: that of its fields, with the places and the diets that the files give.
#[tactic(auto, unfolding(crate::specs::Fields::row_scenario, site::specs::Scenario::scenario_of))]
pub fn row_scenario(card: &Card, scenario: &Scenario) -> Scenario
    requires { over_limit card.now ≡ false }
    ensures { result ≡ row_scenario card.now scenario.now }
{
    let mut fields = scenario.fields;
    put_row(card, &mut fields);
    let own = site::scenario_of(fields, scenario.dust_places);
    Scenario {
        diets: scenario.diets,
        ..own
    }
}

// What becomes of a card before it is run over the files: no card where it is skipped, then its own 7.
#[tactic(auto, using(crate::proofs::Starts::running))]
pub fn start_card(card: &Card) -> Result<Option<RunningCard>, Refusal>
    ensures { start_with result ≡ start_of (Accepted card.now) }
{
    if card.is_skipped() {
        return Ok(None);
    }
    if over_limit(card) {
        return Err(Refusal::FieldOutsideLimits);
    }
    Ok(Some(RunningCard { card: *card }))
}

// What becomes of a row: 12, then what becomes of its card.
pub fn start_row(row: &RowText) -> Result<Option<RunningCard>, Refusal>
    ensures { start_with result ≡ start_of (read_kept row.now) }
{
    start_card(&Card::read(row)?)
}
