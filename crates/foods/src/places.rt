// The foods in the order of E-4d to E-4r, the local foods, which replace a share of others, and the places of their figures.
ghost use Rattle.std.specs.Prelude.{◌≡◌, ◌<◌};
ghost use Rattle.foods.specs.Names.{food_count, local_count};
ghost use Rattle.foods.specs.Places.{place_of, local_place};

use site::places::AGES;

// A food.
#[derive(Clone, Copy, Debug, PartialEq, Eq)]
pub enum Food {
    Beverage,
    Bread,
    CanFruit,
    CanVeg,
    Candy,
    Dairy,
    FreshFruit,
    FreshVeg,
    Formula,
    Infant,
    Juices,
    Meat,
    Nuts,
    Pasta,
    Sauce,
}

impl Food {
    // Its place among the foods.
    pub fn place(self) -> usize
        ensures place { result ≡ place_of self }
        ensures below { result < food_count }
    {
        self as usize
    }
}

// A local food: home-grown vegetable and fruit, fish and game. Their shares and their leads stand in this order.
#[derive(Clone, Copy, Debug, PartialEq, Eq)]
pub enum LocalFood {
    Vegetable,
    Fruit,
    Fish,
    Game,
}

impl LocalFood {
    // Its place among the local foods.
    pub fn place(self) -> usize
        ensures place { result ≡ local_place self }
        ensures below { result < local_count }
    {
        self as usize
    }
}

// The number of foods, of their amounts at all ages, and of local foods.
pub const FOODS: usize = 15;

pub const AMOUNTS: usize = AGES * FOODS;

pub const LOCAL_FOODS: usize = 4;

// The figures in a row: behind the grams the leads, the shares of local foods and their leads. All but the grams have 32 bits.
pub const LEADS_FROM: usize = AMOUNTS; // 105

pub const SHARES_FROM: usize = LEADS_FROM + FOODS; // 120

pub const LOCAL_LEADS_FROM: usize = SHARES_FROM + LOCAL_FOODS; // 124

pub const WIDE_FIGURES: usize = FOODS + LOCAL_FOODS + LOCAL_FOODS; // 23

pub const FIGURES: usize = AMOUNTS + WIDE_FIGURES; // 128
