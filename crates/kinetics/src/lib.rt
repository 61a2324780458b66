// The child's kinetics: one step of the seven compartments.
#![tactic(auto)]

pub mod divisor; // divisor.rt: a month's rates, with the divisors of its steps
pub mod step; // step.rt: one step (B-8, B-9)

// The number of compartments beside plasma, and the six, in the rates' order. No enum: each is used as a place in a list of six, so an enum would be turned
// into a place at each use, and lists and sums would go over a table of all six, which is no plainer. So a function of one compartment asks that its place
// be one of the six.
const COMPARTMENTS: usize = 6;

pub const RED_CELLS: usize = 0;

const LIVER: usize = 1;

const KIDNEY: usize = 2;

const OTHER: usize = 3;

const TRABECULAR: usize = 4;

const CORTICAL: usize = 5;

// Places in a state's lead: plasma first, then the compartments.
pub const PLASMA_AT: usize = 0;

const COMPARTMENTS_AT: usize = 1;

pub const RED_CELLS_AT: usize = COMPARTMENTS_AT + RED_CELLS;

// Places in a state's ledgers.
const URINE_AT: usize = 0;

const FAECES_AT: usize = 1;

const SKIN_AT: usize = 2;

// A child. Lead and ledgers are in pg, in lists by place as the definitions have them: the burden is the sum over one.
#[derive(Clone, Copy, Debug, Default, PartialEq, Eq)]
pub struct State {
    pub month: u64,
    pub lead: [u64; 7], // plasma with ECF, red cells, liver, kidney, other, trabecular, cortical
    pub ledgers: [u64; 3], // what has left by urine, by faeces, by skin, hair and nails
}

// The divisors of a month's rates, in units of 1/D, computed once for all its steps. A list of six, as each of the two lists of rates is.
#[derive(Clone, Copy, Debug, PartialEq, Eq)]
pub struct Divisors {
    pub compartments: [u64; 6], // E1 to E6
    pub plasma: u64, // d
}
