// The day's uptake by its routes (U-1 to U-4).
ghost use Rattle.std.specs.Prelude.{◌≡◌, ◌≤◌, ◌<◌};
ghost use Rattle.uptake.specs.Uptake.{absorbable, passive_uptake};
ghost use Rattle.uptake.specs.Routes.{day_routes, RoutesLimits};
ghost use Rattle.uptake.specs.Internal.{active_by};
ghost use Rattle.numbers.specs.Bounds.{Is};

use crate::Routes;
use crate::absorbable::Absorbable;
use crate::day::{active_part, percent_of, saturation_of};
use crate::weights::BodyWeights;
use intake::passed::PassedIntakes;
use std::array;

impl Absorbable<'_> {
    // The passive part of a medium's uptake (U-1).
    #[tactic(auto, using(crate::proofs::Absorbed::stored_is, crate::proofs::Absorbed::stored_most), unfolding(crate::specs::Uptake::passive_uptake))]
    fn passive(&self, medium: usize) -> u64
        requires { medium < 5 }
        ensures { Is (passive_uptake self.now.exposure.now.exposure medium) (absorbable self.now.exposure.now.exposure medium) result }
    {
        percent_of(self.exposure.exposure.passive[medium], self.media[medium])
    }

    // The active part, of what of its q does not pass passively.
    #[tactic(auto, using(crate::proofs::Absorbed::stored_is, crate::proofs::Absorbed::stored_most, crate::proofs::Absorbed::stored_total_most))]
    fn active(&self, saturation: u64, medium: usize) -> u64
        requires saturation { (0 < saturation) × (saturation ≤ 12_500_000_000) }
        requires within { medium < 5 }
        ensures { result ≡ active_by self.now.exposure.now.exposure saturation medium }
    {
        let rest = self.media[medium] - self.passive(medium);
        active_part(rest, saturation, self.total)
    }
}

// The day's uptake by its routes: of each eaten medium the passive and the active part, and of air (U-4).
pub fn day_routes(passed: &PassedIntakes, weights: BodyWeights) -> Routes
    ensures value { result ≡ day_routes passed.now.exposure.now.exposure weights.month weights.month24 }
    ensures limits { RoutesLimits result }
{
    let saturation = saturation_of(passed.exposure, weights);
    let absorbable = Absorbable::new(passed);
    let passive = array::from_fn(|medium| absorbable.passive(medium));
    let active = array::from_fn(|medium| absorbable.active(saturation, medium));
    let air = percent_of(passed.exposure.exposure.air_absorption, passed.intakes.air);
    Routes {
        passive,
        active,
        air,
    }
}
