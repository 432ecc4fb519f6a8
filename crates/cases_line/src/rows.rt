// Lines read against books, with a row for each, as the lines of a script say:
//
//     # TEXT       a comment; an empty line counts for nothing
//     =BOOK        the book of the cases behind it, as `cases::books` reads it
//     >SHOW        what the rows of the cases behind it show
//     NAME:LINE    a case: its name, which holds no colon, and its line
//
// SHOW is one of these, where N is how many values are lent; else more are lent than any answer takes:
//
//     answer          the answer, or no, a number and a value
//     whether         whether the line is read
//     buffer N        the answer between the number of values lent and the first values of the buffer
//     lending N       the same, in a row for each number of values from 0 to N
//     in-the-way N    the same as for `buffer`, with the number of the words in the way
use cases::books::put_book;
use cases::buffer::Buffer;
use cases::case::Case;
use cases::text::{number, split_once};
use cases::values::Values;
use in_the_way::WayAnswer;
use std::io::Write;
use std::{fmt, io};

// How many values there are to lend.
const VALUES: usize = 512;

// What stands in each value before a line is read.
const MARK: u16 = 9999;

// How many values the row of a buffer shows.
const SHOWN: usize = 10;

#[derive(Clone, Copy)]
enum Show {
    Answer,
    Whether,
    Buffer,
    Lending,
    InTheWay,
}

impl Show {
    // What rows show, by the first letter of its name.
    fn of_name(name: &[u8]) -> Self {
        match name.first() {
            None | Some(b'a') => Show::Answer,
            Some(b'w') => Show::Whether,
            Some(b'b') => Show::Buffer,
            Some(b'l') => Show::Lending,
            Some(_) => Show::InTheWay,
        }
    }
}

// What an answer's row shows: the values of the answer, or a refusal, and behind 15 the number of the words in the way.
#[derive(Drop)]
struct Answer<'a> {
    result: WayAnswer,
    buffer: &'a [u16; VALUES],
}

impl Answer<'_> {
    fn is_read(&self) -> bool {
        matches!(self.result, WayAnswer::Ordinary(Ok(_)))
    }
}

impl fmt::Display for Answer<'_> {
    fn fmt<W: fmt::Write>(&self, f: &mut fmt::Formatter<W>) -> fmt::Result {
        match &self.result {
            WayAnswer::Ordinary(Ok(values)) => {
                // The reference is copied, since the check does not cover a slice of what a field lends.
                let buffer = self.buffer;
                let count = VALUES.min(*values);
                write!(f, "{}", Values(&buffer[..count]))
            }
            WayAnswer::Ordinary(Err(refusal)) => write!(f, " {refusal}"),
            WayAnswer::NoReading { words } => write!(f, " no 15 0 words {words}"),
        }
    }
}

// Writes the row of a case, with so many values lent, or none where there are not so many.
fn row(rt: &impl Print, case: Case<'_>, lent: usize, show: Show) -> io::Result<()> {
    let mut buffer = [MARK; VALUES];
    let Some(answer) = buffer.get_mut(..lent) else {
        return Ok(());
    };
    let result = match show {
        Show::InTheWay => in_the_way::words_in_the_way(case.book, case.text, answer),
        _ => WayAnswer::Ordinary(reader::read_line(case.book, case.text, answer)),
    };
    let answer = Answer {
        result,
        buffer: &buffer,
    };
    io::writer(rt).write_all(case.name)?;
    match show {
        Show::Answer => println!(rt; "{answer}"),
        Show::Whether => println!(rt; " {}", if answer.is_read() { "yes" } else { "no" }),
        _ => println!(rt; " lent {lent}{answer} buffer{}", Values(&buffer[..SHOWN])),
    }
}

// What the lines of a script before a case say: the book, how many values are lent, and what rows show.
#[derive(Drop)]
pub struct Setting {
    book: Buffer,
    lent: usize,
    show: Show,
}

impl Setting {
    pub fn new() -> Self {
        Setting {
            book: Buffer::new(),
            lent: VALUES,
            show: Show::Answer,
        }
    }

    // Takes a line of a script: a book, what is shown, or a case.
    pub fn take_line(&mut self, rt: &impl Print, line: &[u8]) -> io::Result<()> {
        match line {
            [b'=', book @ ..] => put_book(&mut self.book, book),
            [b'>', name @ ..] => {
                self.lent = split_once(name, b' ').map_or(VALUES, |(_, lent)| number(lent));
                self.show = Show::of_name(name);
            }
            _ => {
                if let Some(case) = Case::new(&self.book, line) {
                    return self.rows(rt, case);
                }
            }
        }
        Ok(())
    }

    // Writes the rows of a case: one for each number of values lent from 0 to the last, or for the last alone.
    fn rows(&self, rt: &impl Print, case: Case<'_>) -> io::Result<()> {
        let first = match self.show {
            Show::Lending => 0,
            _ => self.lent,
        };
        for lent in first..=self.lent {
            row(rt, case, lent, self.show)?;
        }
        Ok(())
    }
}
