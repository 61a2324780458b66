// A figure of a site file: its first field, its least and its most.
ghost use Rattle.std.specs.Prelude.{◌≡◌, ◌<◌};
ghost use Rattle.leaflet.specs.Figures.{figures, place_of, least_of};
ghost use Rattle.leaflet.specs.Internal.{MostOf};

use site::limits::{LIMITS, SATURATION_LEAST};
use site::places;

// Ten figures have a field for each age; then come those that stand singly.
const GROUPS: usize = places::INDOOR / places::AGES;

pub const FIGURES: usize = GROUPS + places::FIELDS - places::INDOOR;

// A figure by its number, in the fields' order.
#[derive(Clone, Copy, Debug, PartialEq, Eq)]
pub struct Figure {
    pub number: usize,
    ghost within: { number < figures },
}

impl Figure {
    pub fn new(number: usize) -> Self
        requires { number < figures }
        ensures { result.number ≡ number }
    {
        Figure { number }
    }

    // Its first field.
    fn place(self) -> usize
        ensures { result ≡ place_of self.number }
    {
        if self.number < GROUPS {
            places::AGES * self.number
        } else {
            places::INDOOR + (self.number - GROUPS)
        }
    }

    // Its least: 0, but for saturation's lower end.
    pub fn least(self) -> u32
        ensures { result ≡ least_of self.number }
    {
        if self.place() == places::SATURATION {
            SATURATION_LEAST
        } else {
            0
        }
    }

    // Its most, at every age.
    pub fn most(self) -> u32
        ensures { MostOf self.number result }
    {
        LIMITS[self.place()]
    }
}
