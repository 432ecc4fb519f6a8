// The book check on books, with a row for each, as the lines of a script say:
//
//     # TEXT       a comment; an empty line counts for nothing
//     NAME:BOOK    a case: its name, which holds no colon, and its book, as `cases::books` reads it
use book::BookCheck;
use cases::books::put_book;
use cases::buffer::Buffer;
use cases::text::split_once;
use figures::refusals::Refusal;
use std::io::Write;
use std::{fmt, io};

// What the check answers, as a row shows it: three numbers, or a refusal.
#[derive(Drop)]
struct Answer(Result<BookCheck, Refusal>);

impl fmt::Display for Answer {
    fn fmt<W: fmt::Write>(&self, f: &mut fmt::Formatter<W>) -> fmt::Result {
        match self.0 {
            Ok(
                BookCheck {
                    types,
                    entries,
                    pairs,
                },
            ) => write!(f, "{types} {entries} {pairs}"),
            Err(refusal) => write!(f, "{refusal}"),
        }
    }
}

// Writes the row of a case. A book longer than its buffer has no answer.
pub fn row(rt: &impl Print, buf: &mut Buffer, case: &[u8]) -> io::Result<()> {
    let Some((name, items)) = split_once(case, b':') else {
        return Ok(());
    };
    put_book(buf, items);
    io::writer(rt).write_all(name)?;
    match buf.written() {
        Some(bytes) => println!(rt; " {}", Answer(book::check_book(bytes))),
        None => println!(rt),
    }
}
