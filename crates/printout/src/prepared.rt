// What is kept of a run for its printout.
ghost use Rattle.routes.specs.MonthlySums.{by_route};
ghost use Rattle.routes.specs.Laws.{SumsWithin};

use child::months::MONTHS;
use refusal::Refusal;
use routes::RouteSums;

// What `prepare` keeps, for `line`. The lists have a place for each month that may be done: memory is fixed.
#[derive(Clone, Copy, Debug, PartialEq, Eq)]
pub struct Prepared {
    pub months: u32,
    pub blood: [u32; MONTHS], // thousandths of ug/dL, of the months done
    pub sums: [RouteSums; MONTHS], // of each month's day, in pg
    pub end: Result<(), Refusal>, // the refusal that ended the run, if one did
    pub ghost within: { SumsWithin (by_route sums) }, // so ten digits hold each
}
