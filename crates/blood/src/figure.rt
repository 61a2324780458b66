// The blood figure at a month's end (B-9g, B-10).
ghost use Rattle.std.specs.Prelude.{◌≤◌};
ghost use Rattle.row.specs.Limits.{RowLimits};
ghost use Rattle.kinetics.specs.Step.{burden, burden_limit};
ghost use Rattle.blood.specs.Blood.{blood_of};
ghost use Rattle.numbers.specs.Bounds.{Is};

use kinetics::{PLASMA_AT, RED_CELLS_AT, State};
use numbers::HUNDREDTHS;
use row::Row;

// The ECF's volume, in hundredths of the blood's.
const ECF_PERCENT: u64 = 73;

// Blood lead, in thousandths of µg/dL.
pub fn blood_figure(row: &Row, state: &State) -> u32
    requires row { RowLimits row.now }
    requires burden { burden state.now.lead ≤ burden_limit }
    ensures { Is (blood_of row.now state.now.lead) 50_000_000 result }
{
    let volume = row.blood_volume;
    let plasma_volume = row.plasma_volume;
    let ecf_volume = ECF_PERCENT * volume / HUNDREDTHS;
    let in_plasma = state.lead[PLASMA_AT] * plasma_volume / (ecf_volume + plasma_volume);
    let figure = (state.lead[RED_CELLS_AT] + in_plasma) / volume;
    figure as u32
}
