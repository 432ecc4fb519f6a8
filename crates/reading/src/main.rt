// Reads one order line from standard input against the book in the file `book.bin`, and lists its reading or says why there is none.
#![tactic(auto)]

mod input;

use input::{LINE_ROOM, MAX_LINE};
use listing::{MAX_LISTING, render};
use reader::read_line;
use std::io;
use std::io::Write;

// How many values are lent for an answer.
const VALUES: usize = 512;

// Room for a book one byte longer than the longest.
const BOOK_ROOM: usize = 65536;

// Reads a line against a book, and writes the listing of its reading or the row of its refusal.
fn answer_line(rt: &impl Print, book: &[u8], line: &[u8]) -> io::Result<()> {
    let mut values = [0; VALUES];
    let answer = read_line(book, line, &mut values);
    let mut text = [0; MAX_LISTING];
    match render(book, line, answer, &values, &mut text) {
        Ok(bytes) => io::writer(rt).write_all(&text[..bytes]),
        // Never taken: MAX_LISTING bytes always suffice (`answer_short`, `refusal_short`).
        Err(_) => Ok(()),
    }
}

fn main(rt: HostRuntime) -> io::Result<()> {
    let mut line = [0; LINE_ROOM];
    let length = input::take_line(&rt, &mut line);
    if MAX_LINE < length {
        return println!(rt; "long");
    }
    let mut book = [0; BOOK_ROOM];
    let size = input::take_book(&rt, &mut book);
    answer_line(&rt, &book[..size], &line[..length])
}
