// Listings of lines against a book, as the lines of a script say:
//
//     # TEXT               a comment; an empty line counts for nothing
//     =BOOK                the book of the cases behind it, as `cases::books` reads it
//     >listing, >rooms     what is shown of the cases behind it: one listing each, or one in buffers of every length
//     NAME:LINE            a case: what the reader answers is listed
//     NAME:LINE:NUMBERS    a case: numbers are listed in the place of what the reader answers, with a space between them: how many values were read, and the
//                          values of the buffer
//
// No name and no line holds a colon.
use crate::rooms::list_rooms;
use cases::books::put_book;
use cases::buffer::Buffer;
use cases::case::Case;
use cases::text::{number, split_once};
use figures::refusals::Refusal;
use listing::{MAX_LISTING, TooShort};
use std::io::Write;
use std::{fmt, io};

// How many values there are to lend.
pub const VALUES: usize = 512;

// What rendering gave, as a row shows it.
#[derive(Drop)]
pub struct Outcome(pub Result<usize, TooShort>);

impl fmt::Display for Outcome {
    fn fmt<W: fmt::Write>(&self, f: &mut fmt::Formatter<W>) -> fmt::Result {
        match self.0 {
            Ok(bytes) => write!(f, " written {bytes}"),
            Err(TooShort { needed }) => write!(f, " short {needed}"),
        }
    }
}

// Writes the row of a listing, and behind it the listing, where it is not longer than an answer's can be.
pub fn list(
    rt: &impl Print,
    case: Case<'_>,
    answer: Result<usize, Refusal>,
    buffer: &[u16],
) -> io::Result<()> {
    let mut text = [0; MAX_LISTING];
    let result = listing::render(case.book, case.text, answer, buffer, &mut text);
    io::writer(rt).write_all(case.name)?;
    println!(rt; "{}", Outcome(result))?;
    match result {
        Ok(bytes) => io::writer(rt).write_all(&text[..bytes]),
        Err(_) => Ok(()),
    }
}

// Lists what the reader answers.
fn list_read(rt: &impl Print, case: Case<'_>) -> io::Result<()> {
    let mut values = [0; VALUES];
    let answer = reader::read_line(case.book, case.text, &mut values);
    list(rt, case, answer, &values)
}

// Lists values that are given: how many were read, and the values of the buffer, as many as there is room for.
fn list_given(rt: &impl Print, case: Case<'_>, numbers: &[u8]) -> io::Result<()> {
    let mut buffer = [0; VALUES];
    let values = numbers.split(|byte| *byte == b' ').skip(1);
    for (place, value) in buffer.iter_mut().zip(values) {
        *place = (number(value) % 65536) as u16;
    }
    let spaces = numbers.iter().filter(|byte| **byte == b' ').count();
    list(rt, case, Ok(number(numbers)), &buffer[..VALUES.min(spaces)])
}

// What is shown of a case: one listing, or one in buffers of every length.
#[derive(Clone, Copy)]
enum Show {
    Listing,
    Rooms,
}

// What the lines of a script before a case say: the book, and what is shown.
#[derive(Drop)]
pub struct Setting {
    book: Buffer,
    show: Show,
}

impl Setting {
    pub fn new() -> Self {
        Setting {
            book: Buffer::new(),
            show: Show::Listing,
        }
    }

    // Takes a line of a script: a book, what is shown, or a case.
    pub fn take_line(&mut self, rt: &impl Print, line: &[u8]) -> io::Result<()> {
        match line {
            [b'=', book @ ..] => put_book(&mut self.book, book),
            [b'>', b'r', ..] => self.show = Show::Rooms,
            [b'>', ..] => self.show = Show::Listing,
            _ => {
                if let Some(case) = Case::new(&self.book, line) {
                    return self.list_case(rt, case);
                }
            }
        }
        Ok(())
    }

    // Lists a case as it is shown.
    fn list_case(&self, rt: &impl Print, case: Case<'_>) -> io::Result<()> {
        match (self.show, split_once(case.text, b':')) {
            (Show::Rooms, _) => list_rooms(rt, case),
            (Show::Listing, Some((text, numbers))) => {
                let case = Case { text, ..case };
                list_given(rt, case, numbers)
            }
            (Show::Listing, None) => list_read(rt, case),
        }
    }
}
