// The rate book: 17 blocks of five month rows each, decoded once into a table of numbers, or refused.
#![tactic(auto)]

ghost use Rattle.std.specs.Prelude.{◌≡◌, ◌+◌, ◌<◌};
ghost use Rattle.refusal.specs.Refusal.{number_in};
ghost use Rattle.book.specs.Book.{book_blocks, book_form, book_refusal, book_decodes, book_table};
ghost use Rattle.book.specs.Internal.{BlockDecoded, BookDecoded};

use block::read::Fields;
use block::{BLOCK_BYTES, FIELDS_AT, Form};
use refusal::Refusal;
use row::BLOCK_ROWS;
use row::places::ROW_NUMBERS;

// A book is blocks 0 to 16.
pub const BOOK_BLOCKS: usize = 17;

pub const BOOK_BYTES: usize = BOOK_BLOCKS * BLOCK_BYTES;

// Numbers of a block, and of the table of all blocks. The table is one array, since C is given it as it is.
const BLOCK_NUMBERS: usize = BLOCK_ROWS * ROW_NUMBERS;

pub const TABLE_NUMBERS: usize = BOOK_BLOCKS * BLOCK_NUMBERS;

// Block n of a book is of edition 1, with bytes used up to the end of its last row.
fn book_form(n: u32) -> Form
    ensures { result ≡ book_form n }
{
    Form {
        number: n,
        edition: 1,
        used: FIELDS_AT + 4 * BLOCK_NUMBERS,
    }
}

// Decodes block n of a book into its part of the table. No other function decodes a block, and none but this raises the number of decodes: by one,
// whether the block is refused or not. The number is lent beside the table and is no part of the answer, since a refusal tells it too. The two
// make no struct, here or in the calls above: C lends the table alone.
fn decode_block(
    book: &[u8; BOOK_BYTES],
    n: usize,
    table: &mut [u32; TABLE_NUMBERS],
    decodes: &mut u32,
) -> Result<(), Refusal>
    requires { (n < book_blocks) × (decodes.old < book_blocks) }
    ensures block_decoded { BlockDecoded book.now n table.old table.new (number_in result) }
    ensures decodes_after { decodes.new ≡ decodes.old + 1 }
{
    *decodes += 1;
    let (blocks, _) = book.as_chunks::<BLOCK_BYTES>();
    let block = &blocks[n];
    block::read::check_block(block, book_form(n as u32))?;
    let first = BLOCK_NUMBERS * n;
    let last = first + BLOCK_NUMBERS;
    block::read::read_numbers::<Fields>(block, FIELDS_AT, &mut table[first..last]);
    if row::limits::rows_fit(table, BLOCK_ROWS * n) {
        Ok(())
    } else {
        Err(Refusal::RowOutsideLimits)
    }
}

// Decodes the blocks in turn up to the first that is refused, each by its own number, which is part of the form that is due.
fn decode_blocks(
    book: &[u8; BOOK_BYTES],
    table: &mut [u32; TABLE_NUMBERS],
    decodes: &mut u32,
) -> Result<(), Refusal>
    requires { decodes.old ≡ 0 }
    ensures { BookDecoded book.now table.new (record { refusal = number_in result; decodes = decodes.new }) }
{
    for n in 0..BOOK_BLOCKS {
        decode_block(book, n, table, decodes)?;
    }
    Ok(())
}

// Reads a book into a table of its 85 rows of 23 numbers, a blank one if it is refused, and says how many of its blocks were decoded.
pub fn read_book(
    book: &[u8],
    table: &mut [u32; TABLE_NUMBERS],
    decodes: &mut u32,
) -> Result<(), Refusal>
    ensures number { number_in result ≡ book_refusal book.now }
    ensures decodes_after { decodes.new ≡ book_decodes book.now }
    ensures table_after { table.new ≡ book_table book.now }
{
    *decodes = 0;
    let Ok(book) = book.try_into() else {
        table.fill(0);
        return Err(Refusal::WrongLength);
    };
    let decoded = decode_blocks(book, table, decodes);
    if decoded.is_err() {
        table.fill(0); // the blocks before the refused one left their numbers
    }
    decoded
}
