// Prints the leaflet: least and most of each figure of a site file, from the list that the site check walks, and the two rules beside it.
#![tactic(auto)]

ghost use Rattle.std.specs.Prelude.{◌≤◌, ◌<◌, length};
ghost use Rattle.leaflet.specs.Internal.{grouped_limit, words_most};

use figure::Figure;
use labels::LABELS;
use site::limits::{SATURATION_LEAST, SHARES_MOST};
use std::io;

mod figure; // figure.rt: a figure of a site file, its least and its most
mod grouped; // grouped.rt: numbers with commas
mod labels; // labels.rt: the figures' names
mod page; // page.rt: a line of the leaflet

// Prints a line for each figure, in the fields' order, up to the first that cannot be written, whose error it answers.
fn print_figures(rt: &impl Print) -> io::Result<()> {
    for (number, label) in LABELS.iter().enumerate() {
        rt.write_all(page::figure_line(label, Figure::new(number)).bytes())?;
    }
    Ok(())
}

// Prints a rule: its words, and its number at their end. The two are no struct: it would be made at each of two calls, and is no plainer.
fn print_rule(rt: &impl Print, words: &[u8], number: u64) -> io::Result<()>
    requires { (number < grouped_limit) × (length words.now ≤ words_most) }
{
    rt.write_all(page::rule_line(words, number).bytes())
}

// Prints the leaflet, up to the first line that cannot be written, whose error it answers.
fn print_leaflet(rt: &impl Print) -> io::Result<()> {
    rt.write_all(b"name                ages  unit                  least      most\n")?;
    print_figures(rt)?;
    print_rule(
        rt,
        b"\nfirst_draw_share and fountain_share together: at most ",
        SHARES_MOST,
    )?;
    print_rule(rt, b"saturation: at least ", u64::from(SATURATION_LEAST))
}

fn main(rt: HostRuntime) {
    if let Err(why) = print_leaflet(&rt) {
        console::fail(&rt, "leaflet", why);
    }
}
