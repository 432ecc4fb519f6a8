// One listing in buffers of every length, with a row for each: a name and the length, what rendering gave, and the bytes of the buffer and
// of what stands behind it.
use crate::rows::{Outcome, VALUES};
use cases::case::Case;
use std::io;
use std::io::Write;

// The longest buffer that is lent.
const LAST: usize = 28;

// How many bytes a row shows.
const SHOWN: usize = 30;

// What stands in each byte before a listing is rendered.
const MARK: u8 = b'.';

// Writes bytes with a slash in the place of each row's end.
fn show(rt: &impl Print, mut text: [u8; SHOWN]) -> io::Result<()> {
    for byte in &mut text {
        if *byte == b'\n' {
            *byte = b'/';
        }
    }
    io::writer(rt).write_all(&text)
}

// Writes the rows of all lengths.
pub fn list_rooms(rt: &impl Print, case: Case<'_>) -> io::Result<()> {
    for room in 0..=LAST {
        let mut values = [0; VALUES];
        let answer = reader::read_line(case.book, case.text, &mut values);
        let mut text = [MARK; SHOWN];
        let result = listing::render(case.book, case.text, answer, &values, &mut text[..room]);
        io::writer(rt).write_all(case.name)?;
        print!(rt; " in {room}{} ", Outcome(result))?;
        show(rt, text)?;
        println!(rt)?;
    }
    Ok(())
}
