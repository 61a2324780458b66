// The diet intake of each age, pg/day, from a foods block: E-5d to E-5v, one floor for each food.
#![tactic(auto)]

ghost use Rattle.std.specs.Prelude.{◌≡◌};
ghost use Rattle.diet.specs.Diet.{diets_of};

use eaten::Eaten;
use foods::figures::FoodsFigures;
use site::places::AGES;

mod eaten;

// The diet intakes of all ages. Tried with `array::from_fn`, and the proof did not close: in its closure, where an `Eaten` is made, nothing bounds the age;
// a function of one age would ask for its range again, which `Eaten` is there to spare.
pub fn diets_of(figures: &FoodsFigures) -> [u64; AGES]
    ensures { result ≡ diets_of figures.now.figures }
{
    let mut diets = [0u64; AGES];
    for (age, diet) in diets.iter_mut().enumerate() {
        let eaten = Eaten { figures, age };
        *diet = eaten.diet();
    }
    diets
}
