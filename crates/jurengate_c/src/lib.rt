// The C interface for firmware: include/jurengate.h declares these calls.
#![tactic(auto)]

ghost use Rattle.std.specs.Prelude.{◌≡◌, length};
ghost use Rattle.block.specs.Writer.{writer_refusal, written};
ghost use Rattle.site.specs.DustPlaces.{fields_of};
ghost use Rattle.site.specs.Site.{read_site};
ghost use Rattle.convert.specs.Convert.{to_second_refusal, to_second, to_first_refusal, to_first};
ghost use Rattle.foods.specs.Foods.{foods_refusal, foods_figures};
ghost use Rattle.book.specs.Book.{book_refusal, book_table};
ghost use Rattle.steps.specs.Steps.{steps_a_day};
ghost use Rattle.engine.specs.Birth.{birth_of};
ghost use Rattle.engine.specs.Month.{month_of};
ghost use Rattle.child.specs.Months.{run_answer, run_list};
ghost use Rattle.engine.specs.Run.{run_of};
ghost use Rattle.files.specs.Files.{files_of, files_with};
ghost use Rattle.jurengate.specs.Words.{words_of, state_of};

use book::TABLE_NUMBERS;
use files::CallFiles;
use foods::places::FIGURES;
use jurengate::WORDS;
use site::dust_places::{self, PLACE_FIELDS};
use site::places::FIELDS;

// Reads a site file: its refusal, and its fields, zeros if it is refused. A `match`, since the closure of `map_or` would need a clause that says what it
// answers.
#[unsafe(no_mangle)]
pub extern "C" fn jurengate_read_site(site: &[u8], fields: &mut [u32; FIELDS]) -> u32
    ensures value { result ≡ (read_site site.now).refusal }
    ensures fields_after { fields.new ≡ (read_site site.now).scenario.fields }
{
    let site_read = site::read_site(site);
    *fields = match site_read {
        Ok(scenario) => scenario.fields,
        Err(_) => [0; FIELDS],
    };
    refusal::number_in(&site_read)
}

// Reads the five places of a site file: its refusal, and a share and a dust figure of each, zeros in edition 1 and if it is refused.
#[unsafe(no_mangle)]
pub extern "C" fn jurengate_read_places(site: &[u8], places: &mut [u32; PLACE_FIELDS]) -> u32
    ensures value { result ≡ (read_site site.now).refusal }
    ensures places_after { places.new ≡ fields_of (read_site site.now).scenario.dust_places }
{
    let places_read = site::read_site(site);
    *places = match places_read {
        Ok(scenario) => dust_places::fields_of(&scenario.dust_places),
        Err(_) => [0; PLACE_FIELDS],
    };
    refusal::number_in(&places_read)
}

// Fills a target of 512 bytes with a site file of edition 1 in edition 2, with zero shares and figures; if it refuses, it leaves the target.
#[unsafe(no_mangle)]
pub extern "C" fn jurengate_site_to_edition_2(site: &[u8], target: &mut [u8]) -> u32
    ensures value { result ≡ to_second_refusal site.now target.old }
    ensures target_after { target.new ≡ to_second site.now target.old }
{
    let converted = convert::to_second(site, target);
    refusal::number_in(&converted)
}

// And with one of edition 2, no share of which is above 0, in edition 1.
#[unsafe(no_mangle)]
pub extern "C" fn jurengate_site_to_edition_1(site: &[u8], target: &mut [u8]) -> u32
    ensures value { result ≡ to_first_refusal site.now target.old }
    ensures target_after { target.new ≡ to_first site.now target.old }
{
    let converted = convert::to_first(site, target);
    refusal::number_in(&converted)
}

// Reads a rate book: its refusal, and its 85 rows of 23 numbers, zeros if it is refused.
#[unsafe(no_mangle)]
pub extern "C" fn jurengate_read_book(book: &[u8], table: &mut [u32; TABLE_NUMBERS]) -> u32
    ensures value { result ≡ book_refusal book.now }
    ensures table_after { table.new ≡ book_table book.now }
{
    let mut decodes = 0;
    let book_read = book::read_book(book, table, &mut decodes);
    refusal::number_in(&book_read)
}

// Reads a foods block: its refusal, and its 128 figures, 105 grams, 15 leads, 4 shares, 4 leads, zeros if it is refused.
#[unsafe(no_mangle)]
pub extern "C" fn jurengate_read_foods(foods: &[u8], figures: &mut [u32; FIGURES]) -> u32
    ensures value { result ≡ foods_refusal foods.now }
    ensures figures_after { figures.new ≡ foods_figures foods.now }
{
    let foods_read = foods::read_figures(foods, figures);
    refusal::number_in(&foods_read)
}

// Writes a body of 508 bytes with its check into a target of 512.
#[unsafe(no_mangle)]
pub extern "C" fn jurengate_write_block(body: &[u8], target: &mut [u8]) -> u32
    ensures value { result ≡ writer_refusal body.now target.old }
    ensures target_after { target.new ≡ written body.now target.old }
{
    let wrote = block::write::write_block(body, target);
    refusal::number_in(&wrote)
}

// Birth: the child at month 0, all zeros if it is refused.
#[unsafe(no_mangle)]
pub extern "C" fn jurengate_birth(site: &[u8], book: &[u8], state: &mut [u64; WORDS]) -> u32
    ensures value { result ≡ (birth_of (files_of site.now book.now)).refusal }
    ensures state_after { state.new ≡ words_of (birth_of (files_of site.now book.now)).state }
{
    jurengate::birth_into(&CallFiles::of(site, book), state)
}

// One month: the child a month later and its blood figure; if it is refused, the child as it was and 0.
#[unsafe(no_mangle)]
pub extern "C" fn jurengate_month(
    site: &[u8],
    book: &[u8],
    state: &mut [u64; WORDS],
    blood: &mut u32,
) -> u32
    ensures value { result ≡ (month_of steps_a_day (state_of state.old) (files_of site.now book.now)).refusal }
    ensures state_after { state.new ≡ words_of (month_of steps_a_day (state_of state.old) (files_of site.now book.now)).state }
    ensures blood_after { blood.new ≡ (month_of steps_a_day (state_of state.old) (files_of site.now book.now)).blood }
{
    jurengate::month_into(&CallFiles::of(site, book), state, blood)
}

// The run: birth and 84 months, the figure of each month done written into the list.
#[unsafe(no_mangle)]
pub extern "C" fn jurengate_run(
    site: &[u8],
    book: &[u8],
    blood: &mut [u32],
    state: &mut [u64; WORDS],
    months: &mut u32,
) -> u32
    ensures value { result ≡ (run_of steps_a_day (files_of site.now book.now) (length blood.old)).refusal }
    ensures blood_after { blood.new ≡ run_list (run_of steps_a_day (files_of site.now book.now) (length blood.old)) blood.old }
    ensures state_after { state.new ≡ words_of (run_of steps_a_day (files_of site.now book.now) (length blood.old)).state }
    ensures months_after { months.new ≡ (run_answer (run_of steps_a_day (files_of site.now book.now) (length blood.old))).months }
{
    jurengate::run_into(&CallFiles::of(site, book), blood, state, months)
}

// The same three with a foods block, whose diet takes the place of the site file's: C has no argument that may be left out.
#[unsafe(no_mangle)]
pub extern "C" fn jurengate_birth_foods(
    site: &[u8],
    foods: &[u8],
    book: &[u8],
    state: &mut [u64; WORDS],
) -> u32
    ensures value { result ≡ (birth_of (files_with site.now foods.now book.now)).refusal }
    ensures state_after { state.new ≡ words_of (birth_of (files_with site.now foods.now book.now)).state }
{
    jurengate::birth_into(&CallFiles::with(site, foods, book), state)
}

#[unsafe(no_mangle)]
pub extern "C" fn jurengate_month_foods(
    site: &[u8],
    foods: &[u8],
    book: &[u8],
    state: &mut [u64; WORDS],
    blood: &mut u32,
) -> u32
    ensures value { result ≡ (month_of steps_a_day (state_of state.old) (files_with site.now foods.now book.now)).refusal }
    ensures state_after { state.new ≡ words_of (month_of steps_a_day (state_of state.old) (files_with site.now foods.now book.now)).state }
    ensures blood_after { blood.new ≡ (month_of steps_a_day (state_of state.old) (files_with site.now foods.now book.now)).blood }
{
    jurengate::month_into(&CallFiles::with(site, foods, book), state, blood)
}

#[unsafe(no_mangle)]
pub extern "C" fn jurengate_run_foods(
    site: &[u8],
    foods: &[u8],
    book: &[u8],
    blood: &mut [u32],
    state: &mut [u64; WORDS],
    months: &mut u32,
) -> u32
    ensures value { result ≡ (run_of steps_a_day (files_with site.now foods.now book.now) (length blood.old)).refusal }
    ensures blood_after { blood.new ≡ run_list (run_of steps_a_day (files_with site.now foods.now book.now) (length blood.old)) blood.old }
    ensures state_after { state.new ≡ words_of (run_of steps_a_day (files_with site.now foods.now book.now) (length blood.old)).state }
    ensures months_after { months.new ≡ (run_answer (run_of steps_a_day (files_with site.now foods.now book.now) (length blood.old))).months }
{
    jurengate::run_into(&CallFiles::with(site, foods, book), blood, state, months)
}
