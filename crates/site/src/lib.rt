// The site file: one block of 94 fields, and in edition 2 of ten more, read into a scenario or refused, and written.
#![tactic(auto)]

ghost use Rattle.std.specs.Prelude.{◌≡◌};
ghost use Rattle.site.specs.Scenario.{dust_source_of, water_source_of, scenario_of};
ghost use Rattle.site.specs.Site.{read_in, read_site, read_site_as};

use block::read::Fields;
use block::{BLOCK_BYTES, FIELDS_AT};
use dust_places::{DUST_PLACES, DustPlace, PLACE_FIELDS};
use edition::{Edition, PLACES_AT};
use places::{AGES, FIELDS};
use refusal::Refusal;

pub mod dust_places; // dust_places.rt: the five places of edition 2
pub mod edition; // edition.rt: the two editions
pub mod limits;
pub mod places;
pub mod put; // put.rt: figures put over a site file's own
pub mod write; // write.rt: a site file from its fields

pub const SITE_BYTES: usize = BLOCK_BYTES;

// Where the dust figure comes from: given, or from soil and air by the multiple source formula.
#[derive(Clone, Copy, Debug, PartialEq, Eq)]
pub enum DustSource {
    Given,
    MultipleSource,
}

// Where the water concentration comes from: one constant figure, or flushed, first draw and fountain by their shares.
#[derive(Clone, Copy, Debug, PartialEq, Eq)]
pub enum WaterSource {
    Constant,
    ThreeSources,
}

// A site file's fields and places, with the diet of each age and the two modes decoded. The fields are one array, since C is given them as they are.
#[derive(Clone, Copy, Debug, PartialEq, Eq)]
pub struct Scenario {
    pub fields: [u32; FIELDS],
    pub dust_places: [DustPlace; DUST_PLACES],
    pub diets: [u64; AGES], // pg/day: the fields' own, or those of foods, which are in 64 bits
    pub dust_source: DustSource,
    pub water_source: WaterSource,
}

impl From<u32> for DustSource {
    ghost from_gives = { λ mode source. source ≡ dust_source_of mode };

    fn from(mode: u32) -> DustSource {
        if mode == 0 {
            DustSource::Given
        } else {
            DustSource::MultipleSource
        }
    }
}

// Beside the one above, since the two modes choose between other sources: one impl over both would need a type of both.
impl From<u32> for WaterSource {
    ghost from_gives = { λ mode source. source ≡ water_source_of mode };

    fn from(mode: u32) -> WaterSource {
        if mode == 0 {
            WaterSource::Constant
        } else {
            WaterSource::ThreeSources
        }
    }
}

// The scenario of a site file's fields and places.
#[tactic(auto, unfolding(crate::specs::Scenario::scenario_of))]
pub fn scenario_of(fields: [u32; FIELDS], dust_places: [DustPlace; DUST_PLACES]) -> Scenario
    ensures { result ≡ scenario_of fields dust_places }
{
    Scenario {
        diets: numbers::widened(&fields, places::DIET),
        dust_source: DustSource::from(fields[places::DUST_MODE]),
        water_source: WaterSource::from(fields[places::WATER_MODE]),
        fields,
        dust_places,
    }
}

// Reads a block as a site file of an edition. The places' bytes are reserved in edition 1, so they are read in either edition alike. It is not inlined, so
// that it stands once, and what it reads into is off the stack again when its caller goes on.
#[inline(never)]
fn read_block(site: &[u8; BLOCK_BYTES], edition: Edition) -> Result<Scenario, Refusal>
    ensures { read_in result ≡ read_site_as edition site.now }
{
    block::read::check_block(site, edition.form())?;
    let mut fields = [0u32; FIELDS];
    block::read::read_numbers::<Fields>(site, FIELDS_AT, &mut fields);
    let mut of_places = [0u32; PLACE_FIELDS];
    block::read::read_numbers::<Fields>(site, PLACES_AT, &mut of_places);
    let dust_places = dust_places::places_of(&of_places);
    limits::check(&fields, &dust_places)?;
    Ok(scenario_of(fields, dust_places))
}

// Reads a site file of an edition.
pub fn read_site_as(site: &[u8], edition: Edition) -> Result<Scenario, Refusal>
    ensures { read_in result ≡ read_site_as edition site.now }
{
    let Ok(block) = site.try_into() else {
        return Err(Refusal::WrongLength);
    };
    read_block(block, edition)
}

// Reads a site file of either edition.
pub fn read_site(site: &[u8]) -> Result<Scenario, Refusal>
    ensures { read_in result ≡ read_site site.now }
{
    let Ok(site) = site.try_into() else {
        return Err(Refusal::WrongLength);
    };
    read_block(site, Edition::due(site))
}
