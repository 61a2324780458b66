// Why a call is refused. A caller in C is told the number, and 0 where the call is accepted.
#![tactic(auto)]

ghost use Rattle.std.specs.Prelude.{◌≡◌};
ghost use Rattle.refusal.specs.Refusal.{number_of, number_in};

// A refusal, and its number.
#[derive(Clone, Copy, Debug, PartialEq, Eq)]
pub enum Refusal {
    WrongLength = 1, // of a file, of a writer's body or of a target
    WrongListLength = 2, // of a run's list
    WrongCheck = 3, // of a block, as the next three
    WrongEdition = 4,
    WrongNumber = 5,
    ReservedNotZero = 6,
    FieldOutsideLimits = 7, // of a site file, or a figure of a card's row
    RowOutsideLimits = 8, // of a rate book
    IntakeTooLarge = 9,
    SharesOver = 10, // of a foods block, as the next
    AmountOver = 11,
    WrongRow = 12, // of a card's text
    PlacesOver = 13, // the shares of a site file's five places together
    ShareAway = 14, // a share of a place above 0, where edition 1 is to take the file
    NoState = 20, // of no child, as the next two
    LastMonthDone = 21,
    BurdenTooLarge = 22,
}

impl Refusal {
    // Its number.
    pub fn number(self) -> u32
        ensures { result ≡ number_of self }
    {
        self as u32
    }
}

impl From<Refusal> for u32 {
    ghost from_gives = { λ refusal number. number ≡ number_of refusal };

    fn from(refusal: Refusal) -> u32 {
        refusal.number()
    }
}

// The number of an answer: 0 if it is accepted.
pub fn number_in<T: Drop>(answer: &Result<T, Refusal>) -> u32
    ensures { result ≡ number_in answer.now }
{
    match answer {
        Ok(_) => 0,
        Err(refusal) => refusal.number(),
    }
}
