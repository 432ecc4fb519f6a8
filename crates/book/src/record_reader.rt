// The record reader: made at an offset of a book, it says why the next record is refused. The work is left to `record_fault`, on the
// book and the offset, and callers use `fault_at`.
ghost use Rattle.std.specs.Prelude.{◌≡◌, ◌≤◌, length};
ghost use Rattle.figures.specs.Refusals.{fault_number};
ghost use Rattle.rules.specs.Rules.{record_rules, first_broken};
ghost use Rattle.format.specs.Records.{bodies_at};
ghost use Rattle.format.specs.Names.{Named};

use crate::RecordReader;
use figures::refusals::Cause;
use rules::record_fault;

// A reader at an offset of the book.
pub fn reader_at<'a>(book: &'a [u8], at: usize) -> RecordReader<'a>
    ensures { (result.book ≡ book.entry) × (result.at ≡ at) }
{
    RecordReader { book, at }
}

// The fault of the next record, if it has one.
pub fn next_fault<'a, 'b>(
    r: RecordReader<'a>,
    names: &'b [u16],
    types: usize,
    entries: usize,
    targets: usize,
) -> Result<(), Cause>
    requires { (r.at ≤ length r.book.now) × Named r.book.now names.now types }
    ensures { fault_number result ≡ first_broken (record_rules r.entry.book.now r.entry.at
        (bodies_at r.entry.book.now names.now types) entries targets) }
{
    record_fault(r.book, r.at, names, types, entries, targets)
}

// The same for a caller that has the book and the offset.
pub fn fault_at(
    book: &[u8],
    at: usize,
    names: &[u16],
    types: usize,
    entries: usize,
    targets: usize,
) -> Result<(), Cause>
    requires { (at ≤ length book.now) × Named book.now names.now types }
    ensures { fault_number result ≡ first_broken (record_rules book.now at (bodies_at book.now names.now types) entries
        targets) }
{
    next_fault(reader_at(book, at), names, types, entries, targets)
}
