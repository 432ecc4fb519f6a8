// A record: its head, and its body as a part of the book.
ghost use Rattle.std.specs.Prelude.{◌≡◌, ◌≤◌, length};
ghost use Rattle.format.specs.Records.{body_at, next_at};

use bytewise::widths::two_bytes;

// The bytes of a record's head: the body's length and the kind.
pub const HEAD: usize = 4;

// The body of the record at an offset, which is there whole.
#[tactic(auto, using(crate::proofs::RecordLaws::two_bytes_read))]
pub fn body_at(book: &[u8], at: usize) -> &[u8]
    requires { next_at book.now at ≤ length book.now }
    ensures { result.now ≡ body_at book.now at }
{
    let start = at + HEAD;
    let end = start + two_bytes(book, at);
    &book[start..end]
}
