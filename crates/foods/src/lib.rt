// The foods block: the grams of fifteen foods at each age, their lead, and what local foods replace, read or refused.
#![tactic(auto)]

ghost use Rattle.std.specs.Prelude.{◌≡◌, IfOk, OnOk};
ghost use Rattle.refusal.specs.Refusal.{number_in};
ghost use Rattle.foods.specs.Foods.{foods_refusal, foods_figures};

use block::read::{Fields, Words};
use block::{BLOCK_BYTES, FIELDS_AT, Form};
use figures::FoodsFigures;
use places::{AMOUNTS, FIGURES, WIDE_FIGURES};
use refusal::Refusal;

pub mod figures;
mod limits;
pub mod places;

pub const FOODS_BYTES: usize = BLOCK_BYTES;

// Where the figures of 32 bits stand, behind the grams of 16.
const LEADS_AT: usize = FIELDS_AT + 2 * AMOUNTS; // 214

// A foods block is block 1 of edition 1, with bytes used up to the end of its last lead, 306.
const FOODS_FORM: Form = Form {
    number: 1,
    edition: 1,
    used: LEADS_AT + 4 * WIDE_FIGURES,
};

// Decodes a foods block into lent figures.
fn decode(block: &[u8], figures: &mut [u32; FIGURES]) -> Result<(), Refusal>
    ensures number { number_in result ≡ foods_refusal block.now }
    ensures figures_after { OnOk result (figures.new ≡ foods_figures block.now) }
{
    let Ok(block) = block.try_into() else {
        return Err(Refusal::WrongLength);
    };
    block::read::check_block(block, FOODS_FORM)?;
    block::read::read_numbers::<Words>(block, FIELDS_AT, &mut figures[..AMOUNTS]);
    block::read::read_numbers::<Fields>(block, LEADS_AT, &mut figures[AMOUNTS..FIGURES]);
    let shares = limits::shares_fit(figures);
    let amounts = limits::amounts_fit(figures);
    if !shares {
        return Err(Refusal::SharesOver);
    }
    if !amounts {
        return Err(Refusal::AmountOver);
    }
    Ok(())
}

// Reads a foods block into lent memory: its 128 figures, zeros if it is refused. Beside `read_foods`, which hands the figures out as a value with
// their limits: this one fills the memory that C lends.
pub fn read_figures(block: &[u8], figures: &mut [u32; FIGURES]) -> Result<(), Refusal>
    ensures number { number_in result ≡ foods_refusal block.now }
    ensures figures_after { figures.new ≡ foods_figures block.now }
{
    if let Err(refusal) = decode(block, figures) {
        figures.fill(0);
        return Err(refusal);
    }
    Ok(())
}

// Reads a foods block into its 128 figures. It is not inlined, so that they are off the stack again when its caller goes on.
#[inline(never)]
pub fn read_foods(block: &[u8]) -> Result<FoodsFigures, Refusal>
    ensures number { number_in result ≡ foods_refusal block.now }
    ensures figures { IfOk result (λ f. f.figures ≡ foods_figures block.now) }
{
    let mut figures = [0u32; FIGURES];
    decode(block, &mut figures)?;
    Ok(FoodsFigures { figures })
}
