// A text as far as it was read, over a site file and a book.
ghost use Rattle.std.specs.Prelude.{◌≡◌, ◌<◌, OnOk};
ghost use Rattle.lines.specs.Stream.{after};
ghost use Rattle.roll.specs.Words.{rows_a_group};

use files::CallFiles;
use lines::Reader;
use roll::{GROUP_ROWS, Roll};
use std::io;
use std::io::Read;
use text::Line;

const PIECE_BYTES: usize = 512;

// The rows on the roll, fewer than a group, are not printed yet.
#[derive(Drop)]
pub struct Survey<'a> {
    files: CallFiles<'a>,
    reader: Reader,
    roll: Roll,
    ghost room: { roll.count < rows_a_group },
}

// Prints the lines of the rows on a roll, if there are any, and takes the rows off.
fn print_roll(rt: &impl Print, files: &CallFiles, roll: &mut Roll) -> io::Result<()>
    ensures { roll.new.count ≡ 0 }
{
    if roll.count == 0 {
        return Ok(());
    }
    let mut lines = Line::new();
    cardline::put_lines(files, roll, &mut lines);
    roll.count = 0;
    rt.write_all(lines.bytes())
}

impl<'a> Survey<'a> {
    // The start of a text.
    pub fn start(files: CallFiles<'a>) -> Self {
        Survey {
            files,
            reader: Reader::before_text(),
            roll: Roll::new(),
        }
    }

    // Puts the rows that end in a piece on the roll, and prints each group that is full, up to the first that cannot be written, whose error it
    // answers; then the reader is where the piece leads. A step goes up to the end of a row: no index counts it.
    #[tactic(auto, using(crate::proofs::Onward::used_within, crate::proofs::Onward::left_smaller, crate::proofs::Onward::left_leads))]
    fn read_piece(&mut self, rt: &impl Print, piece: &[u8]) -> io::Result<()>
        ensures { OnOk result (self.new.reader ≡ after self.old.reader piece.now) }
    {
        let mut rest = piece;
        while !rest.is_empty() {
            let Survey {
                files,
                reader,
                roll,
            } = self;
            let used = roll.enrol_next(reader, rest);
            rest = &rest[used..];
            if roll.count >= GROUP_ROWS {
                print_roll(rt, files, roll)?;
            }
        }
        Ok(())
    }

    // Prints a line for each row of a text, up to the first group that cannot be written, whose error it answers. If reading fails, the rows on the
    // roll are printed, and that of which a part may be missing is not. A proved loop has to end, and nothing says that a file does: the pieces are
    // counted up to a number that no file reaches.
    pub fn print_rows<R: Print + Eprint + Alloc, F: Read>(
        &mut self,
        rt: &R,
        file: &mut F,
    ) -> io::Result<()> {
        let mut buffer = [0u8; PIECE_BYTES];
        for _ in 0..u64::MAX {
            match file.read(&mut buffer) {
                Ok(0) => break,
                Ok(bytes) => self.read_piece(rt, &buffer[..bytes])?,
                Err(why) => {
                    console::fail(rt, "leadcard", why);
                    return print_roll(rt, &self.files, &mut self.roll);
                }
            }
        }
        let Survey {
            files,
            reader,
            roll,
        } = self;
        roll.enrol_last(reader);
        print_roll(rt, files, roll)
    }
}
