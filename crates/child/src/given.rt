// What accepted files give a child.
ghost use Rattle.child.specs.Decoded.{Decoded};

use book::TABLE_NUMBERS;
use site::Scenario;

// A scenario and a book's table that accepted files give: what a child of them needs is within its limits.
#[derive(Clone, Copy, Debug, PartialEq, Eq)]
pub struct Accepted<'a> {
    pub scenario: &'a Scenario,
    pub table: &'a [u32; TABLE_NUMBERS],
    pub ghost decoded: { Decoded scenario.now table.now },
}
