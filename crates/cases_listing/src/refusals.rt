// Refusals that are listed as they are given, whatever book, line and buffer are.
use crate::rows::list;
use cases::case::Case;
use figures::refusals::Refusal;
use std::io;

// A name, a number and a value each.
const REFUSALS: [(&[u8], u32, usize); 3] = [
    (b"refused-16-and-8", 16, 8),
    (b"refused-0-and-0", 0, 0),
    (b"refused-with-the-greatest-numbers", u32::MAX, usize::MAX),
];

// Lists them with a book and a line that would be refused, and a buffer that holds an answer.
pub fn list_refusals(rt: &impl Print) -> io::Result<()> {
    for (name, number, value) in REFUSALS {
        let case = Case {
            name,
            book: b"",
            text: b"\x7f",
        };
        let answer = Err(Refusal { number, value });
        list(rt, case, answer, &[0, 1, 7, 1, 1])?;
    }
    Ok(())
}
