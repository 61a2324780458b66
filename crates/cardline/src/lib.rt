// What leadcard prints, the lines of a group of rows at a time, from the bytes of its files and the rows on a roll. Reading files and writing bytes is
// left to the program.
#![tactic(auto)]

ghost use Rattle.std.specs.Prelude.{◌≡◌, ◌++◌, length, drop};
ghost use Rattle.files.specs.CallFiles.{files_in};
ghost use Rattle.cardline.specs.Groups.{group_lines, lines_read};

use files::CallFiles;
use roll::{GROUP_ROWS, Roll};
use text::Line;

mod rows; // rows.rt: the lines of answers

// Bytes that every line fits in: the longest has 8 bytes of text, a number of ten digits and a line feed.
const LINE_BYTES: usize = 19;

// Bytes that the lines of a group fit in.
pub const GROUP_BYTES: usize = GROUP_ROWS * LINE_BYTES;

// What putting the lines of a group answers.
#[derive(Clone, Copy, Debug, PartialEq, Eq)]
pub struct LinesRead {
    pub bytes: usize, // of the lines
    pub decodes: u32, // of blocks of the book
}

// Puts the lines of a roll's rows over these files in place of what stood there, and answers how many blocks of the book were decoded.
pub fn put_lines(files: &CallFiles, roll: &Roll, lines: &mut Line<GROUP_BYTES>) -> u32
    ensures bytes { lines.new ≡ group_lines (files_in files.now) roll.now.count roll.now.words }
    ensures value { record { bytes = length lines.new; decodes = result } ≡ lines_read (files_in files.now) roll.now.count roll.now.words }
{
    let answers = group::answers_of(files, roll);
    rows::put_rows(lines, &answers);
    answers.decodes
}

// Puts the lines of a roll's rows at the start of the target, and keeps the bytes past them.
pub fn put_lines_first(files: &CallFiles, roll: &Roll, target: &mut [u8; GROUP_BYTES]) -> LinesRead
    ensures value { result ≡ lines_read (files_in files.now) roll.now.count roll.now.words }
    ensures target_after { target.new ≡ group_lines (files_in files.now) roll.now.count roll.now.words ++ drop (length (group_lines (files_in files.now) roll.now.count roll.now.words)) target.old }
{
    let mut lines = Line::new();
    let decodes = put_lines(files, roll, &mut lines);
    let bytes = lines.store_first(target);
    LinesRead { bytes, decodes }
}
