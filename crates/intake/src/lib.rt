// What a child takes in a day: the intake of each medium (E-1 to E-12), and refusal 9.
#![tactic(auto)]

ghost use Rattle.std.specs.Prelude.{◌≡◌, ◌≤◌, ◌<◌};
ghost use Rattle.site.specs.DustPlaces.{place_count};
ghost use Rattle.intake.specs.Intake.{air_intake, mixed_water, water_intake, soil_intake, dust_concentration, dust_part, house_dust, place_dust, dust_intake, intakes_of, refusal_of};
ghost use Rattle.numbers.specs.Bounds.{Is};
ghost use Rattle.refusal.specs.Refusal.{number_in};

use exposure::MEDIA;
use exposure::limited::LimitedExposure;
use numbers::HUNDREDTHS;
use refusal::Refusal;
use site::dust_places::{self, DUST_PLACES};
use site::{DustSource, WaterSource};

pub mod passed; // passed.rt: an exposure with its intakes, which 9 lets pass

const HOURS_A_DAY: u64 = 24;

const AIR_SCALE: u64 = 2_400_000; // 24 hours, 100 hundredths, 1,000 litres in a m3

const THOUSANDTHS: u64 = 1_000; // of µg/g, in which soil and dust are

const THOUSANDTHS_A_HUNDREDTH: u64 = 10;

const PART_SCALE: u64 = 10_000; // percent of dust in what is eaten, and hundredths of a share

const INTAKE_MOST: u64 = 1_000_000_000; // pg/day, of air, water, soil, dust and diet

// What is taken in, in pg a day: in the air breathed, and in the eaten media, a list by medium as the definitions have it, which the uptake reads.
#[derive(Clone, Copy, Debug, PartialEq, Eq)]
pub struct Intakes {
    pub air: u64,
    pub media: [u64; MEDIA],
}

impl Intakes {
    // Refused if an air, water, soil or dust intake or a diet is over 10^9.
    #[tactic(auto, unfolding(crate::specs::Intake::refusal_of, numbers::specs::Choice::unless))]
    pub fn check(&self) -> Result<(), Refusal>
        ensures { number_in result ≡ refusal_of self.now }
    {
        let [diet, water, dust, soil, _] = self.media;
        let tested = [self.air, water, soil, dust, diet];
        if tested.iter().all(|intake| *intake <= INTAKE_MOST) {
            Ok(())
        } else {
            Err(Refusal::IntakeTooLarge)
        }
    }
}

// Air (E-1 to E-3): the outdoor figure for the hours out, and its indoor share for the others.
#[tactic(auto, unfolding(crate::specs::Intake::air_intake))]
fn air_intake(limited: &LimitedExposure) -> u64
    ensures { result ≡ air_intake limited.now.exposure }
{
    let exposure = &limited.exposure;
    let outdoors = HUNDREDTHS * exposure.hours_out;
    let indoors = (HOURS_A_DAY - exposure.hours_out) * exposure.indoor;
    let exposed = exposure.air * (outdoors + indoors);
    exposed * exposure.breathing / AIR_SCALE
}

// The three water sources by their shares (E-6b; the flushed share by E-7), in hundredths of pg/mL.
#[tactic(auto, unfolding(crate::specs::Intake::mixed_water))]
fn mixed_water(limited: &LimitedExposure) -> u64
    ensures { Is (mixed_water limited.now.exposure) 1_000_000_000 result }
{
    let exposure = &limited.exposure;
    let flushed_share = HUNDREDTHS - exposure.first_draw_share - exposure.fountain_share;
    let flushed = exposure.flushed * flushed_share;
    let first_draw = exposure.first_draw * exposure.first_draw_share;
    let fountain = exposure.fountain * exposure.fountain_share;
    flushed + first_draw + fountain
}

// Water (E-6a, E-6b).
#[tactic(auto, unfolding(crate::specs::Intake::water_intake))]
fn water_intake(limited: &LimitedExposure) -> u64
    ensures { result ≡ water_intake limited.now.exposure }
{
    let exposure = &limited.exposure;
    match exposure.water_source {
        WaterSource::Constant => exposure.water * exposure.constant,
        WaterSource::ThreeSources => exposure.water * mixed_water(limited) / HUNDREDTHS,
    }
}

// Soil (E-8).
#[tactic(auto, unfolding(crate::specs::Intake::soil_intake))]
fn soil_intake(limited: &LimitedExposure) -> u64
    ensures { result ≡ soil_intake limited.now.exposure }
{
    let exposure = &limited.exposure;
    exposure.soil * exposure.eaten * exposure.weight_soil / HUNDREDTHS
}

// The house's dust figure, in pg/mg: given, or by the multiple source formula (E-11).
#[tactic(auto, unfolding(crate::specs::Intake::dust_concentration))]
fn dust_concentration(limited: &LimitedExposure) -> u64
    ensures { Is (dust_concentration limited.now.exposure) 1_050_000_000 result }
{
    let exposure = &limited.exposure;
    match exposure.dust_source {
        DustSource::Given => exposure.dust,
        DustSource::MultipleSource => {
            let from_soil = THOUSANDTHS_A_HUNDREDTH * exposure.contribution * exposure.soil;
            let from_air = exposure.air_to_dust * exposure.air;
            (from_soil + from_air) / THOUSANDTHS
        }
    }
}

// A part of the dust, by a figure, pg/mg, and a share, hundredths (E-9b with E-10; E-12).
#[tactic(auto, using(crate::proofs::Fits::part_most), unfolding(crate::specs::Intake::dust_part))]
fn dust_part(limited: &LimitedExposure, figure: u64, share: u64) -> u64
    requires { (figure ≤ 1_050_000_000) × (share ≤ 100) }
    ensures { Is (dust_part limited.now.exposure figure share) 1_050_000_000_000 result }
{
    let exposure = &limited.exposure;
    let weight_dust = HUNDREDTHS - exposure.weight_soil;
    figure * exposure.eaten * weight_dust * share / PART_SCALE
}

// The house's part: of what the five places leave (E-9.5), by its own figure.
fn house_dust(limited: &LimitedExposure) -> u64
    ensures { Is (house_dust limited.now.exposure) 1_050_000_000_000 result }
{
    let share = HUNDREDTHS - dust_places::shares_away(&limited.exposure.dust_places);
    dust_part(limited, dust_concentration(limited), share)
}

// The part of a place (E-12a to E-12e).
fn place_dust(limited: &LimitedExposure, k: usize) -> u64
    requires { k < place_count }
    ensures { Is (place_dust limited.now.exposure k) 1_050_000_000_000 result }
{
    let place = limited.exposure.dust_places[k];
    dust_part(limited, u64::from(place.dust), u64::from(place.share))
}

// Dust (E-9 with E-12): the house's part and those of the five places.
#[tactic(auto, unfolding(crate::specs::Intake::dust_intake))]
fn dust_intake(limited: &LimitedExposure) -> u64
    ensures { result ≡ dust_intake limited.now.exposure }
{
    let away = (0..DUST_PLACES)
        .map(|k| place_dust(limited, k))
        .sum::<u64>();
    house_dust(limited) + away
}

// All intakes of an exposure, each computed once.
#[tactic(auto, unfolding(crate::specs::Intake::intakes_of))]
pub fn intakes_of(limited: &LimitedExposure) -> Intakes
    ensures { result ≡ intakes_of limited.now.exposure }
{
    let air = air_intake(limited);
    let water = water_intake(limited);
    let dust = dust_intake(limited);
    let soil = soil_intake(limited);
    let exposure = &limited.exposure;
    Intakes {
        air,
        media: [exposure.diet, water, dust, soil, exposure.alternate],
    }
}
