// What the program is given: a line from standard input, and the book from a file.
ghost use Rattle.std.specs.Prelude.{◌≡◌, ◌≤◌, length, take};

use cases::console::fill;
use std::fs;
use std::io::Read;
use std::rt::Files;

pub const MAX_LINE: usize = 4096;

// Room for a line one byte longer than the longest.
pub const LINE_ROOM: usize = MAX_LINE + 1;

// The next byte of a reader. The end of the input counts as a line's end, and so does a failed read.
fn next_byte(reader: &mut impl Read) -> u8 {
    let mut one = [0];
    match reader.read(&mut one) {
        Ok(1) => one[0],
        _ => b'\n',
    }
}

// Puts standard input up to the first line's end at the start of `line`, and gives its length, or that of `line` where it is not shorter.
// What stands behind the line's end is not read.
pub fn take_line(rt: &impl Input, line: &mut [u8]) -> usize
    ensures within { result ≤ length line.new }
    ensures counted { result ≡ length (take result line.new) }
{
    let mut reader = rt.reader();
    for (length, place) in line.iter_mut().enumerate() {
        match next_byte(&mut reader) {
            b'\n' => return length,
            byte => *place = byte,
        }
    }
    line.len()
}

// Puts the file `book.bin`, or as much of it as there is room for, at the start of `book`, and gives the number of its bytes there. A file
// that cannot be opened has none.
pub fn take_book(rt: &impl Files, book: &mut [u8]) -> usize
    ensures within { result ≤ length book.new }
    ensures counted { result ≡ length (take result book.new) }
{
    match fs::open(rt, "book.bin") {
        Ok(mut file) => fill(&mut file, book),
        Err(_) => 0,
    }
}
