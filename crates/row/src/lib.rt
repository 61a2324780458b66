// A month's row of the rate book: read from a table of rows, and its limits.
#![tactic(auto)]

pub mod limits; // limits.rt: the limits of a row
pub mod places; // places.rt: the places of a row's numbers
pub mod table; // table.rt: a month's row of a table

// D, the unit of the rates: a rate of D is 1 a step.
pub const UNIT: u64 = 100_000_000;

// Rows of a block of the book, and the month of the last row.
pub const BLOCK_ROWS: usize = 5;

pub const LAST_MONTH: usize = 84;

// A month's rates a step, in units of 1/D: from plasma to red cells, liver, kidney, other, trabecular and cortical bone, and to
// urine; from these six back to plasma; from liver to faeces, and from other to skin, hair and nails.
// Two lists of six and not six pairs, as the definitions have them, which go over each by its places.
#[derive(Clone, Copy, Debug, PartialEq, Eq)]
pub struct Rates {
    pub out: [u64; 6],
    pub urine: u64,
    pub back: [u64; 6],
    pub faeces: u64,
    pub skin: u64,
}

// A month's row of the book.
#[derive(Clone, Copy, Debug, PartialEq, Eq)]
pub struct Row {
    pub blood_volume: u64, // thousandths of dL
    pub plasma_volume: u64, // thousandths of dL
    pub body_weight: u64, // g, as the next five
    pub kidney: u64,
    pub liver: u64,
    pub other: u64,
    pub trabecular: u64,
    pub cortical: u64,
    pub rates: Rates,
}
