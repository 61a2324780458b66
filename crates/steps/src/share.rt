// What each step of a day absorbs.
ghost use Rattle.std.specs.Prelude.{◌≡◌, ◌≤◌, ◌<◌};
ghost use Rattle.steps.specs.Share.{share_of};

// What step k of a day of s steps absorbs of the day's uptake t. s and t are the letters of the definitions, two numbers as in `days`.
#[tactic(auto, unfolding(crate::specs::Share::share_of))]
pub fn share(s: u64, t: u64, k: u64) -> u64
    requires steps { 0 < s }
    requires uptake { t ≤ 6_000_000_000 }
    requires step { k < 1_000_000_000 }
    ensures { result ≡ share_of s t k }
{
    t * (k + 1) / s - t * k / s
}
