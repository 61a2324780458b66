// What the programs need of the system beside printing: reading files, or the start of an input, and telling why they stop.
#![tactic(auto)]

ghost use Rattle.std.specs.Prelude.{◌≡◌, ◌+◌, ◌≤◌, length, take};
ghost use Rattle.std.specs.Io.KnownBytes.{Consumes};
ghost use Rattle.block.specs.Block.{block_bytes};
ghost use Rattle.book.specs.Book.{book_bytes};

use std::fs::File;
use std::io;
use std::io::{Error, Read};
use std::rt::Files;

// What is read of a site file or a book: a byte more than its format has, so that a longer file has a wrong length and is not read whole.
const SITE_READ: usize = site::SITE_BYTES + 1;

const BOOK_READ: usize = book::BOOK_BYTES + 1;

// Room for a site file and a book, which a program's `main` owns: memory is fixed.
#[derive(Default, Drop)]
pub struct FileRoom {
    site: [u8; SITE_READ],
    book: [u8; BOOK_READ],
}

impl FileRoom {
    // Reads site.lkb and book.lkb of the current folder.
    pub fn read_both<'a>(&'a mut self, rt: &impl Files) -> (&'a [u8], &'a [u8])
        ensures site { length result.0.now ≤ block_bytes + 1 }
        ensures book { length result.1.now ≤ book_bytes + 1 }
    {
        let FileRoom { site, book } = self;
        let site = read_file(rt, "site.lkb", site);
        let book = read_file(rt, "book.lkb", book);
        (site, book)
    }
}

// Reads what the buffer holds of a file. One that is missing or cannot be opened counts as empty; if reading fails, what was read until then counts
// as the file.
fn read_file<'a>(rt: &impl Files, path: &str, buffer: &'a mut [u8]) -> &'a [u8]
    ensures { length result.now ≤ length buffer.old }
{
    match File::open(rt, path) {
        Ok(mut file) => {
            let bytes = read_full(&mut file, buffer);
            &buffer[..bytes]
        }
        Err(_) => &buffer[..0],
    }
}

// Reads until the buffer is full, the input ends or a read fails, and answers how many bytes came. A step is what a read gives: no index counts it.
pub fn read_full<R: Read>(input: &mut R, buffer: &mut [u8]) -> usize
    ensures bound { result ≤ length buffer.new }
    ensures same_length { length buffer.new ≡ length buffer.old }
    ensures bytes { Consumes (R.remaining input.old) (R.remaining input.new) (take result buffer.new) }
{
    let mut done = 0;
    while done < buffer.len() {
        match input.read(&mut buffer[done..]) {
            Ok(0) => return done,
            Ok(bytes) => done += bytes,
            Err(_) => return done,
        }
    }
    done
}

// Says on standard error why a program stops, as `leadline: No space left on device`, and nothing if that cannot be written either.
pub fn fail<R: Eprint + Alloc>(rt: &R, program: &str, why: Error) {
    let _ = tell(rt, program, why);
}

// The reason in the system's words, without its number.
fn tell<R: Eprint + Alloc>(rt: &R, program: &str, why: Error) -> io::Result<()> {
    let told = format!(in rt.alloc(); "{why}")?;
    let text = told.as_str();
    match text.split_once(" (os error ") {
        Some((words, _)) => eprintln!(rt; "{program}: {words}"),
        None => eprintln!(rt; "{program}: {text}"),
    }
}
