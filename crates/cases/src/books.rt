// Books as a script writes them, at the buffer's start: items, as `items` reads them, behind one of the papers' books where a number and a dollar sign stand
// first: 1 and 2 are those of document 01, 3 and 4 the same with slashed entries, and 5 is the dictionary of document 000, example 4.3.
use crate::buffer::Buffer;
use crate::items::put_items;
use crate::text::split_number;

const FIRST_TYPES: &[u8] = b"1 o,1 p,1 w,1 u,2 \x03\x02,4 \x00";

// The second book adds type k, with target k, and an entry of log.
const SECOND_TYPES: &[u8] = b"1 o,1 p,1 w,1 u,1 k,2 \x03\x02,4 \x04";

// Entries 0 to 8 of the first two books.
const ENTRIES: &[u8] =
    b"3 \x05fetch\x00\x00\x01\xff,3 \x05fetch\x00\x00\x02\xff\x01\xff,3 \x04bed4\x01\x00,3 \x05ward7\x03\x00,\
      3 \x08urgently\x00\x01\x00\x00,3 \x05admit\x00\x00\x03\xff,3 \x04site\x02\x00,3 \x02go\x00\x00,\
      3 \x06please\x00\x00\x00\xff";

const LOG: &[u8] = b"3 \x03log\x04\x00\x00\xff";

// The same as slashed entries.
const SLASHED_ENTRIES: &[u8] =
    b"@fetch o/p,@fetch (o/w)/p,@bed4 p,@ward7 u,@urgently o\\o,@admit o/u,@site w,@go o,@please o/o";

const SLASHED_LOG: &[u8] = b"@log k/o";

// The dictionary of document 000, example 4.3, with names respelt in letters and digits and the target s. π1 is p1, π is p.
const EXAMPLE_3: &[u8] =
    b"1 p1,1 p,1 s1,1 s,1 j,1 i,1 q1,1 o,2 \x00\x01,2 \x05\x04,2 \x02\x03,4 \x03,3 \x01I\x00\x00,3 \x04will\x01\x01\x02\x00\x04\xff,\
      3 \x04will\x06\x00\x04\xff\x01\xff,3 \x04meet\x05\x00\x07\xff,3 \x03him\x07\x00";

// Puts a book of the papers.
fn put_papers_book(buf: &mut Buffer, book: usize) {
    let parts = match book {
        1 => [FIRST_TYPES, ENTRIES, b""],
        2 => [SECOND_TYPES, ENTRIES, LOG],
        3 => [FIRST_TYPES, SLASHED_ENTRIES, b""],
        4 => [SECOND_TYPES, SLASHED_ENTRIES, SLASHED_LOG],
        _ => [EXAMPLE_3, b"", b""],
    };
    for part in parts {
        put_items(buf, part);
    }
}

// Puts a book in the place of the one before it.
pub fn put_book(buf: &mut Buffer, text: &[u8]) {
    buf.clear();
    let (number, rest) = split_number(text);
    match rest.strip_prefix(b"$") {
        Some(items) => {
            put_papers_book(buf, number);
            put_items(buf, items);
        }
        None => put_items(buf, text),
    }
}
