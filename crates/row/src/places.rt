// The places of a month row's numbers. From OUT and from BACK on stand six rates: of red cells, liver, kidney, other, trabecular and cortical.
pub const BLOOD_VOLUME: usize = 0;

pub const PLASMA_VOLUME: usize = 1;

pub const BODY_WEIGHT: usize = 2;

pub const KIDNEY_WEIGHT: usize = 3;

pub const LIVER_WEIGHT: usize = 4;

pub const OTHER_WEIGHT: usize = 5;

pub const TRABECULAR_WEIGHT: usize = 6;

pub const CORTICAL_WEIGHT: usize = 7;

pub const OUT: usize = 8;

pub const URINE: usize = 14;

pub const BACK: usize = 15;

pub const FAECES: usize = 21;

pub const SKIN: usize = 22;

// The number of a row's numbers.
pub const ROW_NUMBERS: usize = 23;
