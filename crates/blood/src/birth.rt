// A child at birth (B-7).
ghost use Rattle.std.specs.Prelude.{◌≡◌, ◌≤◌};
ghost use Rattle.row.specs.Limits.{RowLimits};
ghost use Rattle.blood.specs.Birth.{birth_blood, birth_organ, birth_state};
ghost use Rattle.numbers.specs.Bounds.{Is};

use kinetics::{RED_CELLS, State};
use numbers::HUNDREDTHS;
use row::Row;

// The child's blood lead at birth, in hundredths of the mother's.
const BIRTH_PERCENT: u64 = 85;

// Ratios of an organ's lead, in pg a gram, to PB; in tenths.
const LIVER_RATIO: u64 = 130;

const KIDNEY_RATIO: u64 = 106;

const OTHER_RATIO: u64 = 160;

const TRABECULAR_RATIO: u64 = 512;

const CORTICAL_RATIO: u64 = 789;

const TENTHS: u64 = 10;

// PB, in thousandths of µg/dL (B-7a).
#[tactic(auto, unfolding(crate::specs::Birth::birth_blood))]
fn birth_blood(mother: u64) -> u64
    requires { mother ≤ 100_000 }
    ensures { Is (birth_blood mother) 85_000 result }
{
    BIRTH_PERCENT * mother / HUNDREDTHS
}

// The lead of an organ of this weight in g.
#[tactic(auto, unfolding(crate::specs::Birth::birth_organ))]
fn birth_organ(ratio: u64, blood: u64, weight: u64) -> u64
    requires ratio { ratio ≤ 789 }
    requires blood { blood ≤ 85_000 }
    requires weight { weight ≤ 50_000 }
    ensures { result ≡ birth_organ ratio blood weight }
{
    ratio * blood * weight / TENTHS
}

// A child at birth, from the book's row 0 and the mother's blood lead.
pub fn birth_state(row: &Row, mother: u64) -> State
    requires row { RowLimits row.now }
    requires mother { mother ≤ 100_000 }
    ensures { result ≡ birth_state row.now mother }
{
    let out = row.rates.out[RED_CELLS];
    let back = row.rates.back[RED_CELLS];
    let blood = birth_blood(mother);
    let total = blood * row.blood_volume;
    let plasma = total * back / (out + back);
    let red_cells = total - plasma;
    let liver = birth_organ(LIVER_RATIO, blood, row.liver);
    let kidney = birth_organ(KIDNEY_RATIO, blood, row.kidney);
    let other = birth_organ(OTHER_RATIO, blood, row.other);
    let trabecular = birth_organ(TRABECULAR_RATIO, blood, row.trabecular);
    let cortical = birth_organ(CORTICAL_RATIO, blood, row.cortical);
    State {
        month: 0,
        lead: [
            plasma, red_cells, liver, kidney, other, trabecular, cortical,
        ],
        ledgers: [0, 0, 0],
    }
}
