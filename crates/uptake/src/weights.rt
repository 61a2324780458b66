// The body weights that a day's saturation goes by.
ghost use Rattle.uptake.specs.Laws.{Weights};

// The body weights of a month and of the month that the saturation is given for, in g, within the rate book's limits.
#[derive(Clone, Copy, Debug, PartialEq, Eq)]
pub struct BodyWeights {
    pub month: u64,
    pub month24: u64,
    pub ghost within: { Weights month month24 },
}
