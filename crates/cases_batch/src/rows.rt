// Batches read against a book, with a row for each, as the lines of a script say:
//
//     # TEXT             a comment; an empty line counts for nothing
//     =BOOK              the book of the cases behind it, as `cases::books` reads it
//     NAME:LENT:ITEMS    a case: its name, which holds no colon, how many values are lent, a number, or two with a dash between them for each number from
//                        the one to the other, and the batch, of items as `cases::items` reads them
use cases::books::put_book;
use cases::buffer::Buffer;
use cases::case::Case;
use cases::items::put_items;
use cases::text::{number, split_once};
use cases::values::Values;
use figures::refusals::Refusal;
use std::io::Write;
use std::{fmt, io};

// How many values there are: more than the answers of any batch take.
const VALUES: usize = 10240;

// What stands in each value before a batch is read.
const MARK: u16 = 9999;

// How many values a row shows whole, and how many of the first and of the last it shows where there are more.
const WHOLE: usize = 160;

const FIRST: usize = 16;

const LAST: usize = 8;

// What came back, as a row shows it.
#[derive(Drop)]
struct Outcome(Result<usize, Refusal>);

impl fmt::Display for Outcome {
    fn fmt<W: fmt::Write>(&self, f: &mut fmt::Formatter<W>) -> fmt::Result {
        match self.0 {
            Ok(lines) => write!(f, "lines {lines}"),
            Err(refusal) => write!(f, "{refusal}"),
        }
    }
}

// The values up to the last one that is not the mark.
fn changed(values: &[u16; VALUES]) -> &[u16] {
    let last = values.iter().rposition(|value| *value != MARK);
    &values[..last.map_or(0, |last| last + 1)]
}

// A sum of values in which each place counts.
fn sum(values: &[u16]) -> usize {
    values
        .iter()
        .fold(0, |sum, value| sum % 65521 * 31 + usize::from(*value))
}

// What a row shows of the changed values: them all, or that there is none, and of many the first and the last, their number and their sum.
#[derive(Clone, Copy)]
struct Shown<'a>(&'a [u16]);

impl fmt::Display for Shown<'_> {
    fn fmt<W: fmt::Write>(&self, f: &mut fmt::Formatter<W>) -> fmt::Result {
        let values = self.0;
        let count = values.len();
        match count {
            0 => write!(f, " kept"),
            1..=WHOLE => write!(f, ":{}", Values(values)),
            _ => {
                let first = Values(&values[..FIRST]);
                let last = Values(&values[count - LAST..]);
                let sum = sum(values);
                write!(f, ":{first} ..{last}, values {count}, sum {sum}")
            }
        }
    }
}

// Writes the row of a batch, with so many values lent, or none where there are not so many. The array is made behind the test. An array of the whole
// function is cleared for each number that is passed over.
fn row(rt: &impl Print, batch: Case<'_>, lent: usize) -> io::Result<()> {
    if lent <= VALUES {
        let mut values = [MARK; VALUES];
        let outcome = Outcome(batch::read_batch(batch.book, batch.text, &mut values[..lent]));
        io::writer(rt).write_all(batch.name)?;
        println!(rt; " lent {lent} {outcome}{}", Shown(changed(&values)))?;
    }
    Ok(())
}

// The book of the cases that come next, and the batch of the last one.
#[derive(Drop)]
pub struct Buffers {
    book: Buffer,
    batch: Buffer,
}

impl Buffers {
    pub fn new() -> Self {
        Buffers {
            book: Buffer::new(),
            batch: Buffer::new(),
        }
    }

    // Takes a line of a script: a book or a case.
    pub fn take_line(&mut self, rt: &impl Print, line: &[u8]) -> io::Result<()> {
        match line {
            [b'=', book @ ..] => {
                put_book(&mut self.book, book);
                Ok(())
            }
            _ => self.rows(rt, line),
        }
    }

    // Writes the rows of a case, for each number of values lent from the first to the last. A book or a batch longer than its buffer has none.
    fn rows(&mut self, rt: &impl Print, case: &[u8]) -> io::Result<()> {
        let Some((name, rest)) = split_once(case, b':') else {
            return Ok(());
        };
        let Some((range, items)) = split_once(rest, b':') else {
            return Ok(());
        };
        self.batch.clear();
        put_items(&mut self.batch, items);
        let (Some(book), Some(text)) = (self.book.written(), self.batch.written()) else {
            return Ok(());
        };
        let last = split_once(range, b'-').map_or(range, |(_, last)| last);
        for lent in number(range)..=number(last) {
            row(rt, Case { name, book, text }, lent)?;
        }
        Ok(())
    }
}
