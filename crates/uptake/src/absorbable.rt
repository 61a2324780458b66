// What of the eaten media can be absorbed (U-2).
ghost use Rattle.std.specs.Prelude.{◌≡◌, ◌<◌};
ghost use Rattle.intake.specs.Intake.{intake_refusal};
ghost use Rattle.uptake.specs.Uptake.{absorbable};
ghost use Rattle.uptake.specs.Internal.{AbsorbableOf};
ghost use Rattle.numbers.specs.Bounds.{Is};

use crate::day::percent_of;
use crate::total::route_sum;
use exposure::MEDIA;
use exposure::limited::LimitedExposure;
use intake::passed::PassedIntakes;
use std::array;

// What of the five eaten media of an exposure, which refusal 9 lets pass, can be absorbed, in pg a day, and its sum.
#[derive(Clone, Copy, Debug, PartialEq, Eq)]
pub struct Absorbable<'a> {
    pub exposure: &'a LimitedExposure,
    pub media: [u64; MEDIA], // q, in the media's order
    pub total: u64, // A
    pub ghost passed: { intake_refusal exposure.now.exposure ≡ 0 },
    pub ghost own: { AbsorbableOf exposure.now.exposure media total },
}

// q of a medium. No enum: a medium is used as a place in a list of five, so an enum would be turned into a place at each use, and lists and sums would go
// over a table of all five, which is no plainer. So a function of one medium asks that its place be one of the five.
#[tactic(auto, using(crate::proofs::PassedIntakes::passed_intake, crate::proofs::PassedIntakes::absorbable_is))]
fn absorbable_part(passed: &PassedIntakes, medium: usize) -> u64
    requires { medium < 5 }
    ensures { Is (absorbable passed.now.exposure.now.exposure medium) 1_000_000_000 result }
{
    let percents = &passed.exposure.exposure.absorbed;
    percent_of(percents[medium], passed.intakes.media[medium])
}

impl<'a> Absorbable<'a> {
    // The five q, and their sum A.
    pub(crate) fn new(passed: &PassedIntakes<'a>) -> Absorbable<'a>
        ensures { result.exposure.now ≡ passed.now.exposure.now }
    {
        let media = array::from_fn(|medium| absorbable_part(passed, medium));
        let total = route_sum(&media);
        Absorbable {
            exposure: passed.exposure,
            media,
            total,
        }
    }
}
