// The lines of a batch: how many there are, and the byte that closes each.
#![tactic(auto)]

ghost use Rattle.std.specs.Prelude.{◌≡◌, ◌==◌, count_by};
ghost use Rattle.batch_lines.specs.Lines.{line_break};
ghost use Rattle.batch_lines.specs.Counts.{ClosedSays, CountSays};

use figures::limits::{MAX_BATCH, MAX_LINES};

// The byte that closes a line.
pub const LINE_BREAK: u8 = b'\n';

// How many bytes close a line. `filter` and `count` take three times the instructions, since the compiler then takes one byte at a time.
fn count_breaks(batch: &[u8]) -> usize
    ensures { result ≡ count_by (λ byte. byte == line_break) batch.now }
{
    let mut count = 0;
    for byte in batch {
        if *byte == LINE_BREAK {
            count += 1;
        }
    }
    count
}

// Whether the last line is closed.
fn is_closed(batch: &[u8]) -> bool
    ensures { ClosedSays batch.now result }
{
    match batch.last() {
        Some(last) => *last == LINE_BREAK,
        None => true,
    }
}

// How many lines a batch has, unless it has too many bytes or lines or one that is not closed.
pub fn count_lines(batch: &[u8]) -> Option<usize>
    ensures { CountSays batch.now result }
{
    if MAX_BATCH < batch.len() {
        return None;
    }
    if !is_closed(batch) {
        return None;
    }
    let count = count_breaks(batch);
    if MAX_LINES < count {
        return None;
    }
    Some(count)
}
