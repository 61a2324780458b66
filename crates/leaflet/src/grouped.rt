// Numbers with a comma before each three digits.
ghost use Rattle.std.specs.Prelude.{◌≡◌, ◌+◌, ◌≤◌, ◌<◌, ◌++◌, length};
ghost use Rattle.leaflet.specs.Grouped.{last_three, grouped};
ghost use Rattle.leaflet.specs.Internal.{grouped_limit, grouped_most, line_bytes};

use super::page::LINE_BYTES;
use text::Line;

// A comma and the last three digits of a number.
fn put_last_three(line: &mut Line<LINE_BYTES>, n: u64)
    requires { length line.old + 4 ≤ line_bytes }
    ensures { line.new ≡ line.old ++ last_three n }
{
    line.put_byte(b',');
    line.put_digit(n / 100 % 10);
    line.put_digit(n / 10 % 10);
    line.put_digit(n % 10);
}

// The digits of n / 1,000, with a comma before each three, and then the last three. It calls itself as the definition does: a loop would have to
// find the first three, and is no plainer.
pub fn put_grouped(line: &mut Line<LINE_BYTES>, n: u64)
    requires { (n < grouped_limit) × (length line.old + grouped_most ≤ line_bytes) }
    ensures bytes { line.new ≡ line.old ++ grouped n }
    ensures most { length line.new ≤ length line.old + grouped_most }
{
    if n < 1_000 {
        line.put_decimal(n);
        return;
    }
    put_grouped(line, n / 1_000);
    put_last_three(line, n);
}
