// What a month's steps share: its rates, the divisors E1 to E6, and d (point 1 of "One step").
ghost use Rattle.std.specs.Prelude.{◌≡◌, ◌<◌};
ghost use Rattle.row.specs.Limits.{RateLimits};
ghost use Rattle.kinetics.specs.Step.{compartment_divisor, retained};
ghost use Rattle.kinetics.specs.Internal.{DivisorsOf};
ghost use Rattle.numbers.specs.Bounds.{Is};

use super::{COMPARTMENTS, Divisors};
use row::{Rates, UNIT};
use std::array;

// A month's rates, within their limits, and their divisors.
#[derive(Clone, Copy, Debug, PartialEq, Eq)]
pub struct MonthRates {
    pub rates: Rates,
    pub divisors: Divisors,
    pub ghost limits: { RateLimits rates },
    pub ghost of_rates: { DivisorsOf rates divisors },
}

// A month's rates, within their limits.
#[derive(Clone, Copy)]
struct LimitedRates<'a> {
    rates: &'a Rates,
    ghost limits: { RateLimits rates.now },
}

impl LimitedRates<'_> {
    // E of compartment i.
    #[tactic(auto, unfolding(crate::specs::Step::compartment_divisor))]
    fn divisor(&self, i: usize) -> u64
        requires { i < 6 }
        ensures { result ≡ compartment_divisor self.now.rates.now i }
    {
        UNIT + self.rates.back[i] + self.rates.exit(i)
    }

    // What of a of compartment i does not come back within the step.
    fn retained(&self, i: usize) -> u64
        requires { i < 6 }
        ensures { Is (retained self.now.rates.now i) 6_400_000_000 result }
    {
        let a = self.rates.out[i];
        a - a * self.rates.back[i] / self.divisor(i)
    }
}

impl MonthRates {
    // These rates and their divisors.
    pub fn new(rates: Rates) -> MonthRates
        requires { RateLimits rates }
        ensures rates { result.rates ≡ rates }
        ensures divisors { DivisorsOf rates result.divisors }
    {
        let limited = LimitedRates { rates: &rates };
        let compartments = array::from_fn(|i| limited.divisor(i));
        let kept = (0..COMPARTMENTS).map(|i| limited.retained(i)).sum::<u64>();
        let plasma = UNIT + rates.urine + kept;
        let divisors = Divisors {
            compartments,
            plasma,
        };
        MonthRates { rates, divisors }
    }
}
