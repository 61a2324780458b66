// What all rows of a group share in a month.
ghost use Rattle.std.specs.Prelude.{◌<◌};
ghost use Rattle.row.specs.Row.{last_month};
ghost use Rattle.group.specs.Internal.{GroupMonth};

use child::booked::BookedMonth;
use exposure::Exposure;
use survey::ready::ReadyFiles;

// The month that follows those done: the yard's exposure, and what the book gives.
#[derive(Clone, Copy)]
pub struct SharedMonth<'a> {
    pub files: ReadyFiles<'a>,
    pub done: u64, // months
    pub exposure: Exposure,
    pub booked: BookedMonth,
    pub ghost follows: { done < last_month },
    pub ghost shared: { GroupMonth files.scenario.now files.table.now done exposure booked.row booked.weight24 },
}
