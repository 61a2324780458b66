// What the rate book gives a month.
ghost use Rattle.std.specs.Prelude.{◌≡◌};
ghost use Rattle.row.specs.Limits.{RowLimits};
ghost use Rattle.uptake.specs.Laws.{Weights};

use row::Row;
use uptake::weights::BodyWeights;

// A month's row, within its limits, and the body weight that the saturation is given for, in g.
#[derive(Clone, Copy, Debug, PartialEq, Eq)]
pub struct BookedMonth {
    pub row: Row,
    pub weight24: u64,
    pub ghost limits: { RowLimits row },
    pub ghost weights: { Weights row.body_weight weight24 },
}

impl BookedMonth {
    // The body weights that a day's saturation goes by.
    pub fn body_weights(&self) -> BodyWeights
        ensures month { result.month ≡ self.now.row.body_weight }
        ensures month24 { result.month24 ≡ self.now.weight24 }
    {
        BodyWeights {
            month: self.row.body_weight,
            month24: self.weight24,
        }
    }
}
