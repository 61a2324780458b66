// The limits of a row.
ghost use Rattle.std.specs.Prelude.{◌≡◌, ◌+◌, ◌*◌, ◌≤◌, length, min, ◌-◌, ◌^◌};
ghost use Rattle.numbers.specs.Sums.{sum_to};
ghost use Rattle.row.specs.Row.{numbers_a_row, rows_a_block, out, exit, volumes_fit, weights_fit, returns_fit, rates_fit, row_fits, rows_fit};

use super::{BLOCK_ROWS, Rates, Row, UNIT, table};

// Limits of volumes, thousandths of dL.
const BLOOD_LEAST: u64 = 1_000;

const BLOOD_MOST: u64 = 60_000;

const PLASMA_LEAST: u64 = 1;

// Limits of weights, g.
const BODY_LEAST: u64 = 2_000;

const WEIGHT_MOST: u64 = 50_000;

// Limits of rates, in units of 1/D.
const RED_CELLS_LEAST: u64 = 1;

const OUT_MOST: u64 = 64 * UNIT;

const EXIT_MOST: u64 = UNIT / 2;

impl Rates {
    // The rate at which compartment i leaves the body: liver, 1, and other, 3, do. By their places, as the definition has them.
    pub fn exit(&self, i: usize) -> u64
        ensures { result ≡ exit self.now i }
    {
        match i {
            1 => self.faeces,
            3 => self.skin,
            _ => 0,
        }
    }

    // Is each b + c at most D?
    #[tactic(auto, unfolding(crate::specs::Row::returns_fit, numbers::specs::Choice::every))]
    fn returns_fit(&self) -> bool
        ensures { result ≡ returns_fit self.now }
    {
        self.back
            .iter()
            .enumerate()
            .all(|(i, back)| back.saturating_add(self.exit(i)) <= UNIT)
    }

    // What leaves plasma: a1 + .. + a6 + au, or the most that 64 bits hold.
    fn total_out(&self) -> u64
        ensures { result ≡ min (sum_to 6 (out self.now) + self.now.urine) (2 ^ 64 - 1) }
    {
        let mut total = self.urine;
        for rate in self.out {
            total = total.saturating_add(rate);
        }
        total
    }

    #[tactic(auto, unfolding(crate::specs::Row::rates_fit))]
    fn fit(&self) -> bool
        ensures { result ≡ rates_fit self.now }
    {
        self.out[0] >= RED_CELLS_LEAST
            && self.total_out() <= OUT_MOST
            && self.returns_fit()
            && self.faeces <= EXIT_MOST
            && self.skin <= EXIT_MOST
    }
}

impl Row {
    #[tactic(auto, unfolding(crate::specs::Row::volumes_fit))]
    fn volumes_fit(&self) -> bool
        ensures { result ≡ volumes_fit self.now }
    {
        (BLOOD_LEAST..=BLOOD_MOST).contains(&self.blood_volume)
            && (PLASMA_LEAST..self.blood_volume).contains(&self.plasma_volume)
    }

    #[tactic(auto, unfolding(crate::specs::Row::weights_fit))]
    fn weights_fit(&self) -> bool
        ensures { result ≡ weights_fit self.now }
    {
        (BODY_LEAST..=WEIGHT_MOST).contains(&self.body_weight)
            && self.kidney <= WEIGHT_MOST
            && self.liver <= WEIGHT_MOST
            && self.other <= WEIGHT_MOST
            && self.trabecular <= WEIGHT_MOST
            && self.cortical <= WEIGHT_MOST
    }

    // Is a row within its limits?
    #[tactic(auto, unfolding(crate::specs::Row::row_fits))]
    fn fits(&self) -> bool
        ensures { result ≡ row_fits self.now }
    {
        self.volumes_fit() && self.weights_fit() && self.rates.fit()
    }
}

// Are the five rows from `first` within their limits? A list, as in `row_at`. The months go by number, since a row's place in the table is made of it.
pub fn rows_fit(table: &[u32], first: usize) -> bool
    requires { numbers_a_row * (first + rows_a_block) ≤ length table.now }
    ensures { result ≡ rows_fit table.now first }
{
    (first..first + BLOCK_ROWS).all(|month| table::row_at(table, month).fits())
}
