// The sum over the eaten media, and T, the sum of all (U-5).
ghost use Rattle.uptake.specs.Routes.{route_sum, routes_total, RoutesLimits};
ghost use Rattle.uptake.specs.Internal.{PartsLimits};
ghost use Rattle.uptake.specs.Laws.{day_limit, routes_limit};
ghost use Rattle.numbers.specs.Bounds.{Is};

use crate::Routes;
use exposure::MEDIA;

// The sum over the five eaten media: of a gut route's parts, or of the q.
pub fn route_sum(parts: &[u64; MEDIA]) -> u64
    requires { PartsLimits parts.now }
    ensures { Is (route_sum parts.now) routes_limit result }
{
    parts.iter().sum()
}

impl Routes {
    // T, the day's uptake (U-5): both gut routes and the air's.
    pub fn total(&self) -> u64
        requires { RoutesLimits self.now }
        ensures { Is (routes_total self.now) day_limit result }
    {
        route_sum(&self.passive) + route_sum(&self.active) + self.air
    }
}
