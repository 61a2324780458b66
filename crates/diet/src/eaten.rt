// What a child of an age eats: the terms of its diet intake, E-5d to E-5v, each with its own floor.
ghost use Rattle.std.specs.Prelude.{◌*◌, ◌/◌, ◌<◌};
ghost use Rattle.numbers.specs.Bounds.{Is};
ghost use Rattle.site.specs.Fields.{ages};
ghost use Rattle.foods.specs.Places.{place_of, local_place};
ghost use Rattle.diet.specs.Diet.{food_lead, in_meat, half_bought, home_grown, caught, whole_count, in_whole_foods, most_of_food, most_diet, diet_at};

use foods::figures::FoodsFigures;
use foods::places::{Food, LocalFood};
use numbers::HUNDREDTHS;

// A whole in halves of hundredths.
const HALF_HUNDREDTHS: u64 = 200;

// The foods that count whole, E-5m to E-5v.
const WHOLE_FOODS: [Food; 10] = [
    Food::Dairy,
    Food::Juices,
    Food::Nuts,
    Food::Bread,
    Food::Pasta,
    Food::Beverage,
    Food::Candy,
    Food::Sauce,
    Food::Formula,
    Food::Infant,
];

// The foods of a block at one age.
#[derive(Clone, Copy)]
pub struct Eaten<'a> {
    pub figures: &'a FoodsFigures,
    pub age: usize,
    pub ghost within: { age < ages },
}

impl Eaten<'_> {
    // The lead of a food's grams, E-4d to E-4r.
    #[tactic(auto, using(crate::proofs::TermBounds::food_is))]
    fn food_lead(&self, food: Food) -> u64
        ensures { Is (food_lead self.now.figures.now.figures self.now.age (place_of food)) most_of_food result }
    {
        let lead = self.figures.lead_of(food);
        let grams = self.figures.grams_at(self.age, food);
        lead * grams
    }

    // What fish and game leave of the meat.
    #[tactic(auto, using(crate::proofs::TermBounds::meat_is))]
    fn in_meat(&self) -> u64
        ensures { Is (in_meat self.now.figures.now.figures self.now.age) most_of_food result }
    {
        let fish = self.figures.share_of(LocalFood::Fish);
        let game = self.figures.share_of(LocalFood::Game);
        let meat = self.food_lead(Food::Meat);
        let left = HUNDREDTHS - fish - game;
        left * meat / HUNDREDTHS
    }

    // A canned or fresh food: half of what is not home-grown.
    #[tactic(auto, using(crate::proofs::TermBounds::half_is))]
    fn half_bought(&self, food: Food, local: LocalFood) -> u64
        ensures { Is (half_bought self.now.figures.now.figures self.now.age (place_of food) (local_place local)) (most_of_food / 2) result }
    {
        let share = self.figures.share_of(local);
        let bought = self.food_lead(food);
        let left = HUNDREDTHS - share;
        left * bought / HALF_HUNDREDTHS
    }

    // A home-grown food: its share of the canned and fresh grams together, by its own lead.
    #[tactic(auto, using(crate::proofs::TermBounds::home_is))]
    fn home_grown(&self, canned: Food, fresh: Food, local: LocalFood) -> u64
        ensures { Is (home_grown self.now.figures.now.figures self.now.age (place_of canned) (place_of fresh) (local_place local)) (2 * most_of_food) result }
    {
        let share = self.figures.share_of(local);
        let canned_grams = self.figures.grams_at(self.age, canned);
        let fresh_grams = self.figures.grams_at(self.age, fresh);
        let lead = self.figures.local_lead_of(local);
        let grams = canned_grams + fresh_grams;
        share * grams * lead / HUNDREDTHS
    }

    // Fish or game: its share of the meat's grams, by its own lead.
    #[tactic(auto, using(crate::proofs::TermBounds::caught_is))]
    fn caught(&self, local: LocalFood) -> u64
        ensures { Is (caught self.now.figures.now.figures self.now.age (local_place local)) most_of_food result }
    {
        let share = self.figures.share_of(local);
        let grams = self.figures.grams_at(self.age, Food::Meat);
        let lead = self.figures.local_lead_of(local);
        share * grams * lead / HUNDREDTHS
    }

    // The foods that count whole.
    fn in_whole_foods(&self) -> u64
        ensures { Is (in_whole_foods self.now.figures.now.figures self.now.age) (whole_count * most_of_food) result }
    {
        let mut sum: u64 = 0;
        for food in WHOLE_FOODS {
            let lead = self.food_lead(food);
            sum += lead;
        }
        sum
    }

    // The diet intake.
    #[tactic(auto, using(crate::proofs::DietBounds::diet_le), unfolding(crate::specs::Diet::diet_at))]
    pub fn diet(&self) -> u64
        ensures { Is (diet_at self.now.figures.now.figures self.now.age) most_diet result }
    {
        let meat = self.in_meat();
        let can_veg = self.half_bought(Food::CanVeg, LocalFood::Vegetable);
        let fresh_veg = self.half_bought(Food::FreshVeg, LocalFood::Vegetable);
        let can_fruit = self.half_bought(Food::CanFruit, LocalFood::Fruit);
        let fresh_fruit = self.half_bought(Food::FreshFruit, LocalFood::Fruit);
        let home_fruit = self.home_grown(Food::CanFruit, Food::FreshFruit, LocalFood::Fruit);
        let home_veg = self.home_grown(Food::CanVeg, Food::FreshVeg, LocalFood::Vegetable);
        let fish = self.caught(LocalFood::Fish);
        let game = self.caught(LocalFood::Game);
        let whole = self.in_whole_foods();
        meat + can_veg
            + fresh_veg
            + can_fruit
            + fresh_fruit
            + home_fruit
            + home_veg
            + fish
            + game
            + whole
    }
}
