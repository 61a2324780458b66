// A month's row of a table of rows of 23 numbers.
ghost use Rattle.std.specs.Prelude.{◌≡◌, ◌+◌, ◌*◌, ◌≤◌, length};
ghost use Rattle.row.specs.Row.{numbers_a_row, row_from, row_of};

use super::{Rates, Row, places};
use std::array;

// The row of 23 numbers. Both lists are made by number, since a part of a list becomes an array only by a test, with a way out that never comes.
impl From<[u64; places::ROW_NUMBERS]> for Row {
    ghost from_gives = { λ numbers row. row ≡ row_from numbers };

    fn from(numbers: [u64; places::ROW_NUMBERS]) -> Row {
        let rates = Rates {
            out: array::from_fn(|i| numbers[places::OUT + i]),
            urine: numbers[places::URINE],
            back: array::from_fn(|i| numbers[places::BACK + i]),
            faeces: numbers[places::FAECES],
            skin: numbers[places::SKIN],
        };
        Row {
            blood_volume: numbers[places::BLOOD_VOLUME],
            plasma_volume: numbers[places::PLASMA_VOLUME],
            body_weight: numbers[places::BODY_WEIGHT],
            kidney: numbers[places::KIDNEY_WEIGHT],
            liver: numbers[places::LIVER_WEIGHT],
            other: numbers[places::OTHER_WEIGHT],
            trabecular: numbers[places::TRABECULAR_WEIGHT],
            cortical: numbers[places::CORTICAL_WEIGHT],
            rates,
        }
    }
}

// Row `month` of a table. A list and not an array, whose length is the book's, a crate above this one.
#[tactic(auto, unfolding(crate::specs::Row::row_of, crate::specs::Row::row_numbers))]
pub fn row_at(table: &[u32], month: usize) -> Row
    requires { numbers_a_row * month + numbers_a_row ≤ length table.now }
    ensures { result ≡ row_of table.now month }
{
    let numbers = numbers::widened(table, places::ROW_NUMBERS * month);
    Row::from(numbers)
}
