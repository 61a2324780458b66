// The figures of a foods block in 64 bits, each within its limit.
ghost use Rattle.std.specs.Prelude.{◌<◌};
ghost use Rattle.numbers.specs.Bounds.{Is};
ghost use Rattle.site.specs.Fields.{ages};
ghost use Rattle.foods.specs.Places.{place_of, local_place};
ghost use Rattle.foods.specs.Figures.{grams_at, lead_of, share_of, local_lead_of, most_grams, most_lead, most_share};
ghost use Rattle.foods.specs.Limits.{FoodsLimits};

use super::places;
use super::places::{FIGURES, Food, LocalFood};

// The 128 figures in a row, each within its limit. One array and not a field for each kind, since C is given the row as it is.
#[derive(Clone, Copy, Debug, PartialEq, Eq)]
pub struct FoodsFigures {
    pub figures: [u32; FIGURES],
    pub ghost within: { FoodsLimits figures },
}

// Each reader promises the bound of its figures: one method that reads from any place would promise none.
impl FoodsFigures {
    // The grams of a food a day at an age.
    pub fn grams_at(&self, age: usize, food: Food) -> u64
        requires { age < ages }
        ensures { Is (grams_at self.now.figures age (place_of food)) most_grams result }
    {
        let place = places::FOODS * age + food.place();
        u64::from(self.figures[place])
    }

    // The lead of a food.
    pub fn lead_of(&self, food: Food) -> u64
        ensures { Is (lead_of self.now.figures (place_of food)) most_lead result }
    {
        u64::from(self.figures[places::LEADS_FROM + food.place()])
    }

    // The share of a local food.
    pub fn share_of(&self, local: LocalFood) -> u64
        ensures { Is (share_of self.now.figures (local_place local)) most_share result }
    {
        u64::from(self.figures[places::SHARES_FROM + local.place()])
    }

    // The lead of a local food.
    pub fn local_lead_of(&self, local: LocalFood) -> u64
        ensures { Is (local_lead_of self.now.figures (local_place local)) most_lead result }
    {
        u64::from(self.figures[places::LOCAL_LEADS_FROM + local.place()])
    }
}
