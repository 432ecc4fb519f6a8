// A book, opened: its records are scanned, and what reading lines takes of it is kept. Lines are then read against the open book, as many as are wanted.
#![tactic(auto)]

ghost use Rattle.std.specs.Prelude.{◌≡◌};
ghost use Rattle.opening.specs.Open.{IsOpen, IsOpening, OpeningSays};

use book::Counts;
use book::records::scan_book;
use figures::limits::{MAX_ENTRIES, MAX_TARGETS, MAX_TYPES};
use figures::refusals::Refusal;
use format::names::NAME_PLACES;
use lookup::keys::{NO_ENTRY, PLACES, thread_entries};
use order::close;

// A book that is open, as it is lent to what reads lines against it: its bytes, the offsets of the records of its basic types and of its entries, these
// threaded by their keys, its closed order (a row for each basic type) and its targets.
#[derive(Clone, Copy)]
pub struct OpenBook<'a> {
    pub bytes: &'a [u8],
    pub names: &'a [u16],
    pub entries: &'a [u16],
    pub alike: &'a [u16],
    pub order: &'a [u64],
    pub targets: &'a [u8],
}

// What opening a book keeps of it: how much it has, and the lists that are lent. Of each list only the first places mean something, as many as the book
// has. It borrows nothing.
#[derive(Drop)]
pub struct Opening {
    pub counts: Counts,
    pub names: [u16; NAME_PLACES],
    pub entries: [u16; MAX_ENTRIES],
    pub alike: [u16; PLACES],
    pub order: [u64; MAX_TYPES],
    pub targets: [u8; MAX_TARGETS],
}

impl Opening {
    // Lends the open book, whose bytes are `book`: of each list the places that mean something.
    pub fn lend<'a>(&'a self, book: &'a [u8]) -> OpenBook<'a>
        requires { IsOpening book.now self.now }
        ensures bytes { result.bytes.now ≡ book.now }
        ensures fact { IsOpen result.bytes.now result.names.now result.entries.now result.alike.now result.order.now result.targets.now }
    {
        OpenBook {
            bytes: book,
            names: &self.names,
            entries: &self.entries[..self.counts.entries],
            alike: &self.alike,
            order: &self.order[..self.counts.types],
            targets: &self.targets[..self.counts.targets],
        }
    }
}

// Opens a book: any bytes, of any length.
pub fn open_book(book: &[u8]) -> Result<Opening, Refusal>
    ensures { OpeningSays book.now result }
{
    let mut names = [0u16; NAME_PLACES];
    let mut entries = [0u16; MAX_ENTRIES];
    let mut alike = [NO_ENTRY; PLACES];
    let mut direct = [0u64; MAX_TYPES];
    let mut targets = [0u8; MAX_TARGETS];
    let counts = scan_book(book, &mut names, &mut entries, &mut direct, &mut targets)?;
    thread_entries(book, &entries[..counts.entries], &mut alike);
    let order = close(&direct, counts.types).rows;
    Ok(Opening {
        counts,
        names,
        entries,
        alike,
        order,
        targets,
    })
}
