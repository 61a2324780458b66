// A card that runs.
ghost use Rattle.cardsite.specs.Running.{Running};

use card::Card;

// It is not skipped, and none of its figures is over its site limit.
#[derive(Clone, Copy, Debug, PartialEq, Eq)]
pub struct RunningCard {
    pub card: Card,
    pub ghost running: { Running card },
}
