// The C interface for batch cards: include/jurengate_cards.h declares these calls.
#![tactic(auto)]

ghost use Rattle.std.specs.Prelude.{◌≡◌, length};
ghost use Rattle.files.specs.Files.{files_if, files_decodes};
ghost use Rattle.steps.specs.Steps.{steps_a_day};
ghost use Rattle.lines.specs.Text.{line_start};
ghost use Rattle.roll.specs.Words.{rows_a_group};
ghost use Rattle.roll.specs.Enrol.{group_of};
ghost use Rattle.survey.specs.Answer.{row_number, row_blood, row_skipped};
ghost use Rattle.survey.specs.Survey.{row_answer};
ghost use Rattle.group.specs.Group.{answered, group_answers};

use files::CallFiles;
use group::answers::WORDS;

// A row over a site file, a foods block if `has_foods` says so, as C has no argument that may be left out, and a rate book: its number, its blood and
// whether it is skipped.
#[unsafe(no_mangle)]
pub extern "C" fn jurengate_card_row(
    site: &[u8],
    has_foods: bool,
    foods: &[u8],
    book: &[u8],
    row: &[u8],
    blood: &mut u32,
    skipped: &mut bool,
) -> u32
    ensures value { result ≡ row_number (row_answer steps_a_day (files_if has_foods site.now foods.now book.now) row.now) }
    ensures blood_after { blood.new ≡ row_blood (row_answer steps_a_day (files_if has_foods site.now foods.now book.now) row.now) }
    ensures skipped_after { skipped.new ≡ row_skipped (row_answer steps_a_day (files_if has_foods site.now foods.now book.now) row.now) }
{
    let files = CallFiles::if_handed(site, has_foods, foods, book);
    let answer = survey::row_answer(&files, row);
    *blood = answer.unwrap_or(None).unwrap_or(0);
    *skipped = answer == Ok(None);
    refusal::number_in(&answer)
}

// The first 64 rows of a text of rows, or all if it has fewer, over one reading of these files: their number, their answers in pairs, how many
// blocks of the book were decoded, and where the next row starts.
#[unsafe(no_mangle)]
pub extern "C" fn jurengate_card_group(
    site: &[u8],
    has_foods: bool,
    foods: &[u8],
    book: &[u8],
    rows: &[u8],
    answers: &mut [u32; WORDS],
    decodes: &mut u32,
    next: &mut usize,
) -> u32
    ensures value { result ≡ length (group_of rows.now) }
    ensures answers_after { answers.new ≡ answered (group_answers steps_a_day (files_if has_foods site.now foods.now book.now) rows.now) answers.old }
    ensures decodes_after { decodes.new ≡ files_decodes (files_if has_foods site.now foods.now book.now) }
    ensures next_after { next.new ≡ line_start rows_a_group rows.now }
{
    let files = CallFiles::if_handed(site, has_foods, foods, book);
    let read = group::answer_text(&files, rows, answers);
    *decodes = read.decodes;
    *next = read.next;
    read.rows
}
