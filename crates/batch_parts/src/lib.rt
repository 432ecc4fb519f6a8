// The parts of a batch's answers, each a count, a number and the values of a line's answer or refusal, one behind another in a store.
#![tactic(auto)]

ghost use Rattle.std.specs.Prelude.{◌+◌, ◌≤◌, ◌<◌, ◌≡◌, [], ◌∷◌, ◌++◌, length, drop};
ghost use Rattle.std.proofs.lemmas.List.Edits.{sets};
ghost use Rattle.figures.specs.Limits.{max_batch, max_part, value_bound, chart_words};
ghost use Rattle.lookup.specs.Threads.{Threaded};
ghost use Rattle.opening.specs.Open.{IsOpen};
ghost use Rattle.batch_parts.specs.Parts.{alone_reply, part_of};
ghost use Rattle.batch_parts.specs.Stored.{Put, Readying, StoredParts};

use batch_lines::LINE_BREAK;
use bytewise::search::find_byte;
use opening::OpenBook;
use reader::read_open;

// Puts a refused line's part, and gives how many values it has.
fn put_refusal(part: &mut [u16], number: u32, value: usize) -> usize
    requires { (3 ≤ length part.old) × (number < value_bound) × (value < value_bound) }
    ensures { (result ≡ 3) × (part.new ≡ sets part.old 0 (2 ∷ number ∷ value ∷ [])) }
{
    part[..3].copy_from_slice(&[2, number as u16, value as u16]);
    3
}

// Puts the two values before an answer that stands behind them already, and gives how many values the part has.
fn put_head(part: &mut [u16], values: usize) -> usize
    requires { (2 ≤ length part.old) × (1 + values < value_bound) }
    ensures { (result ≡ 2 + values) × (part.new ≡ sets part.old 0 ((1 + values) ∷ 0 ∷ [])) }
{
    part[..2].copy_from_slice(&[(1 + values) as u16, 0]);
    2 + values
}

// Reads a line and puts its part. Gives how many values it has.
fn read_part(
    book: OpenBook<'_>,
    same: &mut [u16],
    chart: &mut [u64],
    line: &[u8],
    part: &mut [u16],
) -> usize
    requires fact { IsOpen book.bytes.now book.names.now book.entries.now book.alike.now book.order.now book.targets.now
        × Threaded book.bytes.now book.entries.now same.old }
    requires chart_len { length chart.old ≡ chart_words }
    requires line_len_bound { (length line.now ≤ max_batch) × (max_part ≤ length part.old) }
    ensures threaded { Threaded book.entry.bytes.now book.entry.entries.now same.new }
    ensures put { Put (part_of (alone_reply book.entry.bytes.now line.now)) result part.new }
{
    match read_open(book, same, chart, line, &mut part[2..]) {
        Ok(values) => put_head(part, values),
        Err(refusal) => put_refusal(part, refusal.number, refusal.value),
    }
}

// Reads all lines of a batch and puts their parts one behind another. Gives how many values these are.
pub fn read_parts(
    book: OpenBook<'_>,
    same: &mut [u16],
    chart: &mut [u64],
    batch: &[u8],
    store: &mut [u16],
) -> usize
    requires fact { IsOpen book.bytes.now book.names.now book.entries.now book.alike.now book.order.now book.targets.now
        × Threaded book.bytes.now book.entries.now same.old }
    requires chart_len { length chart.old ≡ chart_words }
    requires readying { Readying batch.now store.old }
    ensures { StoredParts book.entry.bytes.now batch.now result store.new }
{
    let mut at = 0;
    let mut used = 0;
    // Each line tells where the next one starts, so there is no range to go over.
    while at < batch.len() {
        let end = find_byte(batch, at, LINE_BREAK);
        let line = &batch[at..end];
        used += read_part(book, same, chart, line, &mut store[used..]);
        at = end + 1;
    }
    used
}

// Copies values to the front of the answers.
pub fn copy_front(values: &[u16], answers: &mut [u16])
    requires { length values.now ≤ length answers.old }
    ensures { answers.new ≡ values.now ++ drop (length values.now) answers.old }
{
    answers[..values.len()].copy_from_slice(values);
}
