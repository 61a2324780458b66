// What accepted files give the rows of a card.
ghost use Rattle.survey.specs.Internal.{Ready};

use book::TABLE_NUMBERS;
use site::Scenario;

// A scenario and a book's table that accepted files give: what a row's child needs of them is within its limits. Beside
// `child::given::Accepted`, which has the limits of one scenario: these are of the scenario of any card that runs.
#[derive(Clone, Copy)]
pub struct ReadyFiles<'a> {
    pub scenario: &'a Scenario,
    pub table: &'a [u32; TABLE_NUMBERS],
    pub ghost ready: { Ready scenario.now table.now },
}
