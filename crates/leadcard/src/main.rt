// Prints the blood lead of each child of a survey, a line for each row of card.txt, over site.lkb and book.lkb, all in the current folder.
// A file that is missing or cannot be opened counts as empty. If reading the site file or the book fails, what was read until then counts as the
// file, and has a wrong length; if reading the text fails, its last row may be cut, so the program stops before it and says why. The text is read
// in pieces, and a row is never held whole: neither has a greatest length. Rows are run in groups of 64, in the text's order.
#![tactic(auto)]

use console::FileRoom;
use files::CallFiles;
use reading::Survey;
use std::fs::File;

mod reading; // reading.rt: a text as far as it was read, and the lines of its rows

fn main(rt: HostRuntime) {
    let mut room = FileRoom::default();
    let (site, book) = room.read_both(&rt);
    if let Ok(mut file) = File::open(&rt, "card.txt") {
        let mut survey = Survey::start(CallFiles::of(site, book));
        if let Err(why) = survey.print_rows(&rt, &mut file) {
            console::fail(&rt, "leadcard", why);
        }
    }
}
