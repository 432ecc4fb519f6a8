// The listing of an answer or of a refusal, as text in a lent buffer: for any book, line and values. What it is, is defined in specs/Listing.
#![tactic(auto)]

mod parts;
mod strings;

ghost use Rattle.opening.specs.Open.{IsOpen};
ghost use Rattle.printing.specs.Rows.{refusal_row};
ghost use Rattle.listing.specs.Listing.{listed, listing, Renders};
ghost use Rattle.printing.specs.Kept.{kept_rows, Puttable};
ghost use Rattle.listing.specs.ListingDemands.{ListingPromised};

use answer::parts::{entries_of, first_values, partners_of, target_of};
use figures::limits::{MAX_STRING, MAX_WORDS};
use figures::refusals::Refusal;
use letters::link_letters;
use line::split::split;
use opening::{OpenBook, open_book};
use parts::target_at;
use printing::{put_reading, put_refusal_row};
use strings::join_types;

// How many bytes the listing of what `read_line` answers has at most: 13 for its first row (`yes 24 288 7` and the byte that ends it),
// 40 for each word and 29 for each simple type. specs/Listing has the same figure; proofs/Longest proves it enough.
pub const MAX_LISTING: usize = 13 + 40 * MAX_WORDS + 29 * MAX_STRING;

// The letters of the longest string, behind that of position 0.
const LETTERS: usize = MAX_STRING + 1;

// The buffer is too short for a listing, which takes so many bytes. It is as it was.
#[derive(Clone, Copy)]
pub struct TooShort {
    pub needed: usize,
}

// Renders the row of a refusal.
fn render_refusal(refusal: Refusal, text: &mut [u8]) -> Result<usize, TooShort>
    ensures { Renders (refusal_row refusal.number refusal.value) text.old result text.new }
{
    let number = refusal.number as usize;
    let value = refusal.value;
    let mut nothing = [0u8; 0];
    let bytes = put_refusal_row(number, value, &mut nothing, 0);
    if text.len() < bytes {
        return Err(TooShort { needed: bytes });
    }
    put_refusal_row(number, value, text, 0);
    Ok(bytes)
}

// Renders the rows of an answer's values, for a line that is split and the string of its reading.
fn render_rows(
    book: &[u8],
    names: &[u16],
    types: usize,
    line: &[u8],
    starts: &[usize],
    ends: &[usize],
    values: &[u16],
    string: &[u16],
    letters: &[u8],
    text: &mut [u8],
) -> Result<usize, TooShort>
    requires { Puttable book.now names.now types line.now starts.now ends.now values.now string.now letters.now }
    ensures { Renders
        (kept_rows book.now names.now types line.now values.now string.now letters.now)
        text.old result text.new }
{
    let mut nothing = [0u8; 0];
    let needed = put_reading(
        book,
        names,
        types,
        line,
        starts,
        ends,
        values,
        string,
        letters,
        &mut nothing,
    );
    if text.len() < needed {
        return Err(TooShort { needed });
    }
    put_reading(
        book, names, types, line, starts, ends, values, string, letters, text,
    );
    Ok(needed)
}

// Renders an answer's values for a line and an open book.
fn render_line(
    book: OpenBook<'_>,
    line: &[u8],
    values: &[u16],
    text: &mut [u8],
) -> Result<usize, TooShort>
    requires { IsOpen book.bytes.now book.names.now book.entries.now book.alike.now book.order.now book.targets.now }
    ensures { Renders (listed book.entry.bytes.now line.now values.now) text.old result text.new }
{
    let mut starts = [0usize; MAX_WORDS];
    let mut ends = [0usize; MAX_WORDS];
    let words = match split(line, &mut starts, &mut ends) {
        Ok(words) => words,
        Err(refusal) => return render_refusal(refusal, text),
    };
    let mut string = [0u16; MAX_STRING];
    let shown = first_values(entries_of(values), words);
    let types = book.order.len();
    let simples = join_types(
        book.bytes,
        book.names,
        types,
        book.entries,
        shown,
        &mut string,
    );
    let mut letters = [0u8; LETTERS];
    let target = target_of(values);
    let goal = target_at(book.targets, target);
    let partners = partners_of(values);
    link_letters(book.order, &string[..simples], goal, partners, &mut letters);
    render_rows(
        book.bytes,
        book.names,
        types,
        line,
        &starts[..words],
        &ends[..words],
        values,
        &string[..simples],
        &letters[..simples + 1],
        text,
    )
}

// Renders an answer's values for a book and a line.
fn render_answer(
    book: &[u8],
    line: &[u8],
    values: &[u16],
    text: &mut [u8],
) -> Result<usize, TooShort>
    ensures { Renders (listed book.now line.now values.now) text.old result text.new }
{
    let opening = match open_book(book) {
        Ok(opening) => opening,
        Err(refusal) => return render_refusal(refusal, text),
    };
    render_line(opening.lend(book), line, values, text)
}

// Renders what reading a line against a book answered, with the buffer that the answer was written to. For an answer of `read_line` that is
// its reading's rows, or the row of its refusal; what any other values come to is defined too. Where the buffer holds the listing, so many of its bytes are
// the listing's, and those behind it are as they were.
pub fn render(
    book: &[u8],
    line: &[u8],
    answer: Result<usize, Refusal>,
    buffer: &[u16],
    text: &mut [u8],
) -> Result<usize, TooShort>
    ensures renders { Renders (listing book.now line.now answer buffer.now) text.old result text.new }
    ensures listing_promised { ListingPromised book.now line.now answer buffer.now text.old result text.new }
{
    match answer {
        Err(refusal) => render_refusal(refusal, text),
        Ok(values) => {
            if buffer.len() < values {
                return render_answer(book, line, buffer, text);
            }
            render_answer(book, line, &buffer[0..values], text)
        }
    }
}
