// The limits of a site file's fields, 7, and of its five shares together, 13.
ghost use Rattle.std.specs.Prelude.{◌≡◌, nat_le};
ghost use Rattle.std.specs.List.{list_all, zip};
ghost use Rattle.numbers.specs.Choice.{first_of};
ghost use Rattle.refusal.specs.Refusal.{number_in};
ghost use Rattle.site.specs.Fields.{within_limits, fields_fit};
ghost use Rattle.site.specs.DustPlaces.{limit_refusals};

use super::places;
use crate::dust_places::{DUST_PLACES, DustPlace, places_fit, shares_away};
use refusal::Refusal;

// The most of each field, in the fields' order and units: the check walks this list, and the leaflet is printed from it.
pub const LIMITS: [u32; places::FIELDS] = [
    100_000_000, // air at age 0, pg/m3
    100_000_000, // air at age 1, pg/m3
    100_000_000, // air at age 2, pg/m3
    100_000_000, // air at age 3, pg/m3
    100_000_000, // air at age 4, pg/m3
    100_000_000, // air at age 5, pg/m3
    100_000_000, // air at age 6, pg/m3
    24, // hours_out at age 0, h/day
    24, // hours_out at age 1, h/day
    24, // hours_out at age 2, h/day
    24, // hours_out at age 3, h/day
    24, // hours_out at age 4, h/day
    24, // hours_out at age 5, h/day
    24, // hours_out at age 6, h/day
    100_000, // breathing at age 0, L/day
    100_000, // breathing at age 1, L/day
    100_000, // breathing at age 2, L/day
    100_000, // breathing at age 3, L/day
    100_000, // breathing at age 4, L/day
    100_000, // breathing at age 5, L/day
    100_000, // breathing at age 6, L/day
    100, // air_absorbed at age 0, %
    100, // air_absorbed at age 1, %
    100, // air_absorbed at age 2, %
    100, // air_absorbed at age 3, %
    100, // air_absorbed at age 4, %
    100, // air_absorbed at age 5, %
    100, // air_absorbed at age 6, %
    1_000_000_000, // diet at age 0, pg/day
    1_000_000_000, // diet at age 1, pg/day
    1_000_000_000, // diet at age 2, pg/day
    1_000_000_000, // diet at age 3, pg/day
    1_000_000_000, // diet at age 4, pg/day
    1_000_000_000, // diet at age 5, pg/day
    1_000_000_000, // diet at age 6, pg/day
    10_000, // water_amount at age 0, mL/day
    10_000, // water_amount at age 1, mL/day
    10_000, // water_amount at age 2, mL/day
    10_000, // water_amount at age 3, mL/day
    10_000, // water_amount at age 4, mL/day
    10_000, // water_amount at age 5, mL/day
    10_000, // water_amount at age 6, mL/day
    50_000_000, // soil at age 0, pg/mg
    50_000_000, // soil at age 1, pg/mg
    50_000_000, // soil at age 2, pg/mg
    50_000_000, // soil at age 3, pg/mg
    50_000_000, // soil at age 4, pg/mg
    50_000_000, // soil at age 5, pg/mg
    50_000_000, // soil at age 6, pg/mg
    50_000_000, // dust at age 0, pg/mg
    50_000_000, // dust at age 1, pg/mg
    50_000_000, // dust at age 2, pg/mg
    50_000_000, // dust at age 3, pg/mg
    50_000_000, // dust at age 4, pg/mg
    50_000_000, // dust at age 5, pg/mg
    50_000_000, // dust at age 6, pg/mg
    1_000, // eaten at age 0, mg/day
    1_000, // eaten at age 1, mg/day
    1_000, // eaten at age 2, mg/day
    1_000, // eaten at age 3, mg/day
    1_000, // eaten at age 4, mg/day
    1_000, // eaten at age 5, mg/day
    1_000, // eaten at age 6, mg/day
    1_000_000_000, // alternate at age 0, pg/day
    1_000_000_000, // alternate at age 1, pg/day
    1_000_000_000, // alternate at age 2, pg/day
    1_000_000_000, // alternate at age 3, pg/day
    1_000_000_000, // alternate at age 4, pg/day
    1_000_000_000, // alternate at age 5, pg/day
    1_000_000_000, // alternate at age 6, pg/day
    100, // indoor, %
    100, // weight_soil, %
    100, // contribution, hundredths
    10_000, // air_to_dust, ug/g per ug/m3
    1, // dust_mode, 0 given, 1 multiple source
    1, // water_mode, 0 constant, 1 three sources
    10_000_000, // water, pg/mL
    10_000_000, // flushed, pg/mL
    10_000_000, // first_draw, pg/mL
    10_000_000, // fountain, pg/mL
    100, // first_draw_share, hundredths
    100, // fountain_share, hundredths
    100, // absorbed_diet, %
    100, // absorbed_water, %
    100, // absorbed_dust, %
    100, // absorbed_soil, %
    100, // absorbed_alternate, %
    100, // passive_diet, %
    100, // passive_water, %
    100, // passive_dust, %
    100, // passive_soil, %
    100, // passive_alternate, %
    500_000_000, // saturation, pg/day
    100_000, // mother, thousandths of ug/dL
];

// Beside the list, two rules: the least of saturation, and the most of the two water shares together; the shares of the five places, too, are together
// at most a whole, else 13.
pub const SATURATION_LEAST: u32 = 1_000_000; // pg/day

pub const SHARES_MOST: u64 = 100; // hundredths

// Is each field at most its limit?
fn within_limits(fields: &[u32; places::FIELDS]) -> bool
    ensures { result ≡ within_limits fields.now }
{
    none_above(fields, &LIMITS)
}

// Is each of these figures at most the limit at its place?
fn none_above(figures: &[u32], limits: &[u32]) -> bool
    ensures { result ≡ list_all (λ p. nat_le p.0 p.1) (zip figures.now limits.now) }
{
    figures
        .iter()
        .zip(limits)
        .all(|(figure, limit)| *figure <= *limit)
}

// Are the fields within their limits, saturation's lower end and the rule on the two water shares among them?
#[tactic(auto, unfolding(crate::specs::Fields::fields_fit))]
pub fn fields_fit(fields: &[u32; places::FIELDS]) -> bool
    ensures { result ≡ fields_fit fields.now }
{
    let shares = u64::from(fields[places::FIRST_DRAW_SHARE])
        + u64::from(fields[places::FOUNTAIN_SHARE]);
    within_limits(fields) && fields[places::SATURATION] >= SATURATION_LEAST && shares <= SHARES_MOST
}

// Refused if a field or a place is outside its limits, and then if the shares of the places are together over a whole.
#[tactic(auto, using(crate::proofs::PlaceLimits::shares_within), unfolding(numbers::specs::Choice::unless))]
pub fn check(
    fields: &[u32; places::FIELDS],
    places: &[DustPlace; DUST_PLACES],
) -> Result<(), Refusal>
    ensures { number_in result ≡ first_of (limit_refusals fields.now places.now) }
{
    if !(fields_fit(fields) && places_fit(places)) {
        return Err(Refusal::FieldOutsideLimits);
    }
    if shares_away(places) > SHARES_MOST {
        return Err(Refusal::PlacesOver);
    }
    Ok(())
}
