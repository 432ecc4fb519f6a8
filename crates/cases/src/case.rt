// A case of a script that is tried against a book.
use crate::buffer::Buffer;
use crate::text::split_once;

// A case: its name, which holds no colon, the book, and what stands behind the name's colon.
#[derive(Clone, Copy)]
pub struct Case<'a> {
    pub name: &'a [u8],
    pub book: &'a [u8],
    pub text: &'a [u8],
}

impl<'a> Case<'a> {
    // The case of a line, if it has a colon, and the book is not longer than its buffer.
    pub fn new(book: &'a Buffer, line: &'a [u8]) -> Option<Self> {
        let book = book.written()?;
        let (name, text) = split_once(line, b':')?;
        Some(Case { name, book, text })
    }
}
