// What leadline prints, a line at a time, from the bytes of its two files. Reading files and writing bytes is left to the program.
#![tactic(auto)]

ghost use Rattle.std.specs.Prelude.{◌≡◌, ◌++◌, length, drop, get_or};
ghost use Rattle.refusal.specs.Refusal.{number_in};
ghost use Rattle.files.specs.CallFiles.{files_in};
ghost use Rattle.routes.specs.MonthlySums.{by_route};
ghost use Rattle.printout.specs.Printout.{last_line};
ghost use Rattle.printout.specs.Lines.{prepared_of, sums_at, line_at};
ghost use Rattle.printout.specs.Prepared.{prepared_in};

use child::months::MONTHS;
use files::CallFiles;
use prepared::Prepared;
use routes::RouteSums;
use text::Line;

mod lines; // lines.rt: a month's line and the last line
pub mod prepared; // prepared.rt: what is kept of a run

// Bytes that every line fits in: ten for the month and for each sum, the twelve that a figure asks for, a mark, four spaces and a line feed.
pub const LINE_BYTES: usize = 48;

// Lines of a printout at most: 84 months and the last line.
pub const LINES: u32 = MONTHS as u32 + 1;

// Runs the files, of any length and content, and keeps the figures and each month's sums.
#[tactic(auto, using(routes::proofs::RunSums::kept_within), unfolding(crate::specs::Lines::prepared_of))]
pub fn prepare(files: &CallFiles) -> Prepared
    ensures { prepared_in result ≡ prepared_of (files_in files.now) }
{
    let mut blood = [0u32; MONTHS];
    let run = engine::run(files, &mut blood);
    Prepared {
        months: run.months,
        blood,
        sums: routes::monthly_sums(files),
        end: run.end,
    }
}

impl Prepared {
    // The figure at place k, 0 past the last place.
    fn figure(&self, k: u32) -> u32
        ensures { result ≡ get_or self.now.blood k 0 }
    {
        self.blood.get(k as usize).copied().unwrap_or(0)
    }

    // The sums at place k, zeros past the last place. By `unwrap_or`: std has an equation for it, and none for `unwrap_or_default`.
    #[tactic(auto, using(crate::proofs::Columns::sums_there))]
    fn sums(&self, k: u32) -> RouteSums
        ensures { result ≡ sums_at (by_route self.now.sums) k }
    {
        let none = RouteSums::default();
        self.sums.get(k as usize).copied().unwrap_or(none)
    }

    // The last line: that of the refusal that ended the run, or no bytes.
    fn last_line(&self) -> Line<LINE_BYTES>
        ensures { result ≡ last_line (number_in self.now.end) self.now.months }
    {
        match self.end {
            Ok(()) => Line::new(),
            Err(refusal) => lines::refused_line(refusal, self.months),
        }
    }

    // Line k, from 0: no bytes past the last line.
    #[tactic(auto, using(crate::proofs::Columns::columns_within), unfolding(crate::specs::Lines::line_at))]
    pub fn line(&self, k: u32) -> Line<LINE_BYTES>
        ensures { result ≡ line_at (prepared_in self.now) k }
    {
        if k < self.months {
            lines::month_line(k + 1, self.figure(k), self.sums(k))
        } else if k == self.months {
            self.last_line()
        } else {
            Line::new()
        }
    }
}

// Puts line k, from 0, at the start of the target, keeps the bytes past it, and answers its length: 0 past the last line.
pub fn line(run: &Prepared, k: u32, target: &mut [u8; LINE_BYTES]) -> usize
    ensures value { result ≡ length (line_at (prepared_in run.now) k) }
    ensures target_after { target.new ≡ line_at (prepared_in run.now) k ++ drop (length (line_at (prepared_in run.now) k)) target.old }
{
    run.line(k).store_first(target)
}
