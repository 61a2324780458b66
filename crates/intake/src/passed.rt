// An exposure with its intakes, which refusal 9 lets pass.
ghost use Rattle.std.specs.Prelude.{◌≡◌, IfOk};
ghost use Rattle.intake.specs.Intake.{intakes_of, intake_refusal};
ghost use Rattle.refusal.specs.Refusal.{number_in};

use crate::{Intakes, intakes_of};
use exposure::limited::LimitedExposure;
use refusal::Refusal;

// An exposure within its limits, and its intakes, none of which is too large.
#[derive(Clone, Copy, Debug, PartialEq, Eq)]
pub struct PassedIntakes<'a> {
    pub exposure: &'a LimitedExposure,
    pub intakes: Intakes,
    pub ghost own: { intakes ≡ intakes_of exposure.now.exposure },
    pub ghost passed: { intake_refusal exposure.now.exposure ≡ 0 },
}

impl<'a> PassedIntakes<'a> {
    // Those of an exposure.
    #[tactic(auto, unfolding(crate::specs::Intake::intake_refusal))]
    pub fn new(exposure: &'a LimitedExposure) -> Result<PassedIntakes<'a>, Refusal>
        ensures number { number_in result ≡ intake_refusal exposure.now.exposure }
        ensures same { IfOk result (λ passed. passed.exposure.now ≡ exposure.now) }
    {
        let intakes = intakes_of(exposure);
        intakes.check()?;
        Ok(PassedIntakes { exposure, intakes })
    }
}
