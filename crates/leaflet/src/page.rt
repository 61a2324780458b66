// A line of the leaflet.
ghost use Rattle.std.specs.Prelude.{◌≡◌, ◌+◌, ◌-◌, ◌≤◌, ◌<◌, ◌++◌, length, replicate};
ghost use Rattle.text.specs.Characters.{space};
ghost use Rattle.leaflet.specs.Leaflet.{least_bytes, least_column, figure_line, rule_line};
ghost use Rattle.leaflet.specs.Internal.{grouped_limit, grouped_most, line_bytes, words_most};

use super::figure::Figure;
use super::grouped;
use text::Line;

// Bytes of a figure's label, which is its name, ages and unit, and of the column of its least.
pub const LABEL_BYTES: usize = 48;

const LEAST_BYTES: usize = 11;

// Bytes that every line fits in. What puts a part of a line asks for its room: the line's type bounds only the whole.
pub const LINE_BYTES: usize = 96;

// Blanks up to a place.
fn put_blanks(line: &mut Line<LINE_BYTES>, end: usize)
    requires { (length line.old ≤ end) × (end ≤ line_bytes) }
    ensures { line.new ≡ line.old ++ replicate (end - length line.old) space }
{
    for _ in 0..end - line.bytes().len() {
        line.put_byte(b' ');
    }
}

// The column of a figure's least.
fn put_least(line: &mut Line<LINE_BYTES>, figure: Figure)
    requires { length line.old + grouped_most ≤ line_bytes }
    ensures bytes { line.new ≡ line.old ++ least_column figure.number }
    ensures most { length line.new ≤ length line.old + least_bytes }
{
    let least = figure.least();
    let end = line.bytes().len() + LEAST_BYTES;
    grouped::put_grouped(line, u64::from(least));
    put_blanks(line, end);
}

// The line of a figure: its label, its least and its most.
#[tactic(auto, using(std::proofs::Common::append_assoc), unfolding(crate::specs::Leaflet::figure_line))]
pub fn figure_line(label: &[u8; LABEL_BYTES], figure: Figure) -> Line<LINE_BYTES>
    ensures { result ≡ figure_line label.now figure.number }
{
    let mut line = Line::new();
    line.put_text(label);
    put_least(&mut line, figure);
    grouped::put_grouped(&mut line, u64::from(figure.most()));
    line.put_byte(b'\n');
    line
}

// The line of a rule: its words, and its number at their end.
#[tactic(auto, using(std::proofs::Common::append_assoc), unfolding(crate::specs::Leaflet::rule_line))]
pub fn rule_line(words: &[u8], number: u64) -> Line<LINE_BYTES>
    requires { (number < grouped_limit) × (length words.now ≤ words_most) }
    ensures { result ≡ rule_line words.now number }
{
    let mut line = Line::new();
    line.put_text(words);
    grouped::put_grouped(&mut line, number);
    line.put_byte(b'\n');
    line
}
