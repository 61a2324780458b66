// Prints a child's blood lead and what it takes up in a day by the two gut routes, a line for each month, from site.lkb and book.lkb in the current folder.
// A file that is missing or cannot be opened counts as empty. If reading fails, what was read until then counts as the file.
#![tactic(auto)]

use console::FileRoom;
use files::CallFiles;
use printout::LINES;
use printout::prepared::Prepared;
use std::io;

// Prints each line, up to the first that cannot be written, whose error it answers. A line is made by its number: no list of them is walked.
fn print_lines(rt: &impl Print, run: &Prepared) -> io::Result<()> {
    for k in 0..LINES {
        rt.write_all(run.line(k).bytes())?;
    }
    Ok(())
}

fn main(rt: HostRuntime) {
    let mut room = FileRoom::default();
    let (site, book) = room.read_both(&rt);
    let run = printout::prepare(&CallFiles::of(site, book));
    if let Err(why) = print_lines(&rt, &run) {
        console::fail(&rt, "leadline", why);
    }
}
