// The limits of a foods block's figures.
ghost use Rattle.std.specs.Prelude.{◌≡◌, ◌-◌, ◌≤◌, nat_le};
ghost use Rattle.std.specs.List.{list_all};
ghost use Rattle.foods.specs.Names.{figure_count};
ghost use Rattle.foods.specs.Figures.{shares_fit, all_within, amounts_fit};

use super::places;
use super::places::{FIGURES, LocalFood};

const SHARE_MOST: u32 = 100; // hundredths

const CAUGHT_MOST: u64 = 100; // hundredths, of fish and game together

const GRAMS_MOST: u32 = 10_000; // g/day

const LEAD_MOST: u32 = 1_000_000; // pg/g

// Does no share take more than there is?
#[tactic(auto, unfolding(crate::specs::Figures::shares_fit))]
pub fn shares_fit(figures: &[u32; FIGURES]) -> bool
    ensures { result ≡ shares_fit figures.now }
{
    let fish = figures[places::SHARES_FROM + LocalFood::Fish.place()];
    let game = figures[places::SHARES_FROM + LocalFood::Game.place()];
    let vegetable = figures[places::SHARES_FROM + LocalFood::Vegetable.place()];
    let fruit = figures[places::SHARES_FROM + LocalFood::Fruit.place()];
    let caught = u64::from(fish) + u64::from(game);
    caught <= CAUGHT_MOST && vegetable <= SHARE_MOST && fruit <= SHARE_MOST
}

// Is none of these figures above a limit?
fn none_above(limit: u32, figures: &[u32]) -> bool
    ensures { result ≡ list_all (λ figure. nat_le figure limit) figures.now }
{
    figures.iter().all(|figure| *figure <= limit)
}

// Is each of the figures from `from` up to `to` at most a limit?
fn all_within(limit: u32, figures: &[u32; FIGURES], from: usize, to: usize) -> bool
    requires { (from ≤ to) × (to ≤ figure_count) }
    ensures { result ≡ all_within limit figures.now from (to - from) }
{
    none_above(limit, &figures[from..to])
}

// Is each amount, and each lead, within its limit?
#[tactic(auto, unfolding(crate::specs::Figures::amounts_fit))]
pub fn amounts_fit(figures: &[u32; FIGURES]) -> bool
    ensures { result ≡ amounts_fit figures.now }
{
    all_within(GRAMS_MOST, figures, 0, places::AMOUNTS)
        && all_within(LEAD_MOST, figures, places::LEADS_FROM, places::SHARES_FROM)
        && all_within(LEAD_MOST, figures, places::LOCAL_LEADS_FROM, FIGURES)
}
