// A month's line, and the last line of a refused run.
ghost use Rattle.std.specs.Prelude.{◌≡◌, ◌+◌, ◌≤◌, ◌++◌, length};
ghost use Rattle.refusal.specs.Refusal.{number_of};
ghost use Rattle.uptake.specs.Laws.{routes_limit};
ghost use Rattle.printout.specs.Printout.{flag, column, month_line, refused_line};

use super::LINE_BYTES;
use refusal::Refusal;
use routes::RouteSums;
use text::Line;

// A blood figure over this is marked, thousandths of ug/dL.
const LEVEL: u32 = 30_000;

// `W` over the level, else `-`.
fn flag_of(blood: u32) -> u8
    ensures { result ≡ flag blood }
{
    if blood > LEVEL { b'W' } else { b'-' }
}

// A space and a sum, put into a line of any length N that has room for them.
#[tactic(auto, using(std::proofs::Common::append_assoc))]
fn put_column<const N: usize>(line: &mut Line<N>, sum: u64)
    requires sum { sum ≤ routes_limit }
    requires room { length line.old + 11 ≤ N }
    ensures bytes { line.new ≡ line.old ++ column sum }
    ensures most { length line.new ≤ length line.old + 11 }
{
    line.put_byte(b' ');
    line.put_decimal(sum);
}

// A month's line: month, figure, mark, passive sum and active sum, parted by single spaces.
#[tactic(auto, using(std::proofs::Common::append_assoc), unfolding(crate::specs::Printout::month_line))]
pub fn month_line(month: u32, blood: u32, sums: RouteSums) -> Line<LINE_BYTES>
    requires { (sums.passive ≤ routes_limit) × (sums.active ≤ routes_limit) }
    ensures { result ≡ month_line month blood sums }
{
    let mut line = Line::new();
    line.put_decimal(u64::from(month));
    line.put_byte(b' ');
    line.put_figure(blood);
    line.put_byte(b' ');
    line.put_byte(flag_of(blood));
    put_column(&mut line, sums.passive);
    put_column(&mut line, sums.active);
    line.put_byte(b'\n');
    line
}

// The last line of a refused run: the refusal's number and the months done.
#[tactic(auto, using(std::proofs::Common::append_assoc), unfolding(crate::specs::Printout::refused_line))]
pub fn refused_line(refusal: Refusal, months: u32) -> Line<LINE_BYTES>
    ensures { result ≡ refused_line (number_of refusal) months }
{
    let mut line = Line::new();
    line.put_text(b"refused ");
    line.put_decimal(u64::from(refusal.number()));
    line.put_text(b" after ");
    line.put_decimal(u64::from(months));
    line.put_byte(b'\n');
    line
}
