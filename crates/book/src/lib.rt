// A book: any bytes at all, accepted with its contents or refused by the first rule it breaks.
#![tactic(auto)]

ghost use Rattle.std.specs.Prelude.{◌≡◌};
ghost use Rattle.book.specs.Check.{book_check, check_reply, BookPromised};

use figures::limits::{MAX_ENTRIES, MAX_ENTRY_SIMPLES, MAX_TARGETS, MAX_TYPES};
use figures::refusals::Refusal;
use format::names::NAME_PLACES;
use records::scan_book;

pub mod entries;
pub mod record_reader;
pub mod records;

// A reader of a book's records: the book and the offset of the next record (document 01, "The earliest bad record decides").
#[derive(Drop)]
pub struct RecordReader<'a> {
    pub book: &'a [u8],
    pub at: usize,
}

// How far a book has been read: the offset of the next record, and how many basic types, entries and targets there were.
#[derive(Clone, Copy)]
pub struct Progress {
    pub at: usize,
    pub types: usize,
    pub entries: usize,
    pub targets: usize,
}

// The type of an entry: its simple types as they are held, at the first places.
#[derive(Drop)]
pub struct EntryType {
    pub count: usize,
    pub simples: [u16; MAX_ENTRY_SIMPLES],
}

// How many basic types, entries and targets an accepted book has.
#[derive(Clone, Copy)]
pub struct Counts {
    pub types: usize,
    pub entries: usize,
    pub targets: usize,
}

// What the book check answers of an accepted book: the number of basic types, of entries and of pairs p ≤ q in the closed order.
#[derive(Clone, Copy)]
pub struct BookCheck {
    pub types: usize,
    pub entries: usize,
    pub pairs: u64,
}

// Checks a book alone: any bytes, of any length. An accepted book gives its three numbers, any other its refusal. The book is not written to.
pub fn check_book(book: &[u8]) -> Result<BookCheck, Refusal>
    ensures value { result ≡ book_check book.now }
    ensures book_promised { BookPromised book.now (check_reply result) }
{
    let mut names = [0u16; NAME_PLACES];
    let mut entries = [0u16; MAX_ENTRIES];
    let mut direct = [0u64; MAX_TYPES];
    let mut targets = [0u8; MAX_TARGETS];
    let counts = scan_book(book, &mut names, &mut entries, &mut direct, &mut targets)?;
    let order = order::close(&direct, counts.types);
    let pairs = order::count_pairs(order);
    Ok(BookCheck {
        types: counts.types,
        entries: counts.entries,
        pairs,
    })
}
