// An exposure within its limits.
ghost use Rattle.exposure.specs.Limits.{ExposureLimits};

use crate::Exposure;

// An exposure within the limits that those of an accepted site file keep: all but the diet's, which foods may give.
#[derive(Clone, Copy, Debug, PartialEq, Eq)]
pub struct LimitedExposure {
    pub exposure: Exposure,
    pub ghost within: { ExposureLimits exposure },
}
