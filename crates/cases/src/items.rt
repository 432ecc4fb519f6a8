// A book written as text: items with a comma between them, which no item holds. N and K are numbers in digits.
//
//     N BODY     a record of kind N: 1 is a basic type, 2 an order pair, 3 an entry, 4 a target, 5 a slashed entry
//     @WORD TEXT a slashed entry: a word, which holds no space, and the text of its type
//     N/K        a record's head alone, with the length N and the kind K
//     'BYTES     bytes as they are
//     N#         N basic types: a00, a01, and so on
//     N>PQRS     N order pairs: the first of the types P and Q, and each further one with them moved on by R and S
//     N=         goes to offset N; the bytes before it are what the buffer holds
//     N*ITEM     N times an item
use crate::buffer::Buffer;
use crate::text::{number, split_number, split_once};

// Puts the pairs that four bytes give.
fn put_pairs(buf: &mut Buffer, count: usize, body: &[u8]) {
    if let [p, q, r, s] = body {
        buf.moving_pairs(count, [*p, *q], [*r, *s]);
    }
}

// Puts the slashed entry that a word and a text give, with a space between them.
fn put_slashed(buf: &mut Buffer, body: &[u8]) {
    if let Some((word, text)) = split_once(body, b' ') {
        buf.slashed_entry(word, text);
    }
}

// Puts what a number, a mark and the bytes behind it stand for. No mark, and one that is not known, stands for nothing.
fn put_marked(buf: &mut Buffer, n: usize, marked: &[u8]) {
    let Some((mark, body)) = marked.split_first() else {
        return;
    };
    match *mark {
        b' ' => buf.record(n, body),
        b'/' => buf.head(n, number(body)),
        b'\'' => buf.put_all(body),
        b'@' => put_slashed(buf, body),
        b'#' => buf.numbered_types(n),
        b'>' => put_pairs(buf, n, body),
        b'=' => buf.go_to(n),
        _ => {}
    }
}

// Puts an item: once, or as many times as a number before a star says.
fn put_item(buf: &mut Buffer, item: &[u8]) {
    let (count, single) = match split_number(item) {
        (count, [b'*', single @ ..]) => (count, single),
        _ => (1, item),
    };
    let (n, marked) = split_number(single);
    for _ in 0..count {
        put_marked(buf, n, marked);
    }
}

// Puts the items of a text.
pub fn put_items(buf: &mut Buffer, text: &[u8]) {
    for item in text.split(|byte| *byte == b',') {
        put_item(buf, item);
    }
}
