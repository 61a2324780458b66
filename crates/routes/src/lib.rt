// The two gut routes of each month, from files of any length and content: what a child takes up passively and actively in a day of it, in pg.
#![tactic(auto)]

ghost use Rattle.std.specs.Prelude.{◌≡◌, ◌≤◌};
ghost use Rattle.row.specs.Row.{last_month};
ghost use Rattle.files.specs.CallFiles.{files_in};
ghost use Rattle.routes.specs.Sums.{monthly_sums};
ghost use Rattle.routes.specs.MonthlySums.{by_route};
ghost use Rattle.routes.specs.Internal.{exposed_sums, sums_in};

use child::given::Accepted;
use child::months::MONTHS;
use engine::room::Room;
use exposure::limited::LimitedExposure;
use files::CallFiles;
use intake::passed::PassedIntakes;
use uptake::weights::BodyWeights;

// The sums of a day's two gut routes, in pg.
#[derive(Clone, Copy, Debug, Default, PartialEq, Eq)]
pub struct RouteSums {
    pub passive: u64,
    pub active: u64,
}

// The sums of an exposure's day, by the body weights of the month and of the saturation's; zeros if 9 refuses its intakes.
#[tactic(auto, using(crate::proofs::MonthSums::exposed_some, crate::proofs::MonthSums::exposed_none, refusal::proofs::Numbers::some_number))]
fn exposed_sums(limited: &LimitedExposure, weights: BodyWeights) -> RouteSums
    ensures { result ≡ exposed_sums limited.now.exposure weights.month weights.month24 }
{
    match PassedIntakes::new(limited) {
        Ok(passed) => {
            let routes = uptake::parts::day_routes(&passed, weights);
            let passive = uptake::total::route_sum(&routes.passive);
            let active = uptake::total::route_sum(&routes.active);
            RouteSums { passive, active }
        }
        Err(_) => RouteSums::default(),
    }
}

// The sums of a month's day, 1 to 84, from accepted files (its range is asked for as by `uptake::age::age_of`).
#[tactic(auto, unfolding(crate::specs::Internal::sums_in))]
fn sums_in(accepted: &Accepted, month: u64) -> RouteSums
    requires { (1 ≤ month) × (month ≤ last_month) }
    ensures { result ≡ sums_in accepted.now.scenario.now accepted.now.table.now month }
{
    let exposure = accepted.exposure(month);
    let booked = accepted.booked(month);
    exposed_sums(&exposure, booked.body_weights())
}

// The sums of each month's day; zeros in a month whose intakes 9 refuses, and in every month of refused files.
#[tactic(auto, using(crate::proofs::MonthSums::stored_none, crate::proofs::MonthSums::stored_next, crate::proofs::MonthSums::stored_all, crate::proofs::MonthSums::refused_monthly, refusal::proofs::Numbers::some_number))]
pub fn monthly_sums(files: &CallFiles) -> [RouteSums; MONTHS]
    ensures { by_route result ≡ monthly_sums (files_in files.now) }
{
    let none = RouteSums::default();
    let mut sums = [none; MONTHS];
    let mut room = Room::default();
    let Ok(accepted) = room.accept(files) else {
        return sums;
    };
    for (done, sum) in sums.iter_mut().enumerate() {
        *sum = sums_in(&accepted, done as u64 + 1);
    }
    sums
}
