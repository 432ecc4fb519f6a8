// The words of a line, and refusals 11 and 12.
ghost use Rattle.std.specs.Prelude.{◌≡◌, ◌≤◌, not, position, length};
ghost use Rattle.figures.specs.Limits.{max_words};
ghost use Rattle.format.specs.Records.{between};
ghost use Rattle.line.specs.Split.{Skipped, SplitSays};

use bytewise::search::find_byte;
use figures::limits::{MAX_WORD, MAX_WORDS};
use figures::refusals::{Cause, Refusal};

// Whether a line may have this byte: 32 to 126.
fn is_line_byte(byte: u8) -> bool
    ensures { result ≡ between 32 126 byte }
{
    matches!(byte, 32..=126)
}

// The offset of the first byte that no line may have.
fn bad_byte(line: &[u8]) -> Option<usize>
    ensures { result ≡ position (λ byte. not (between 32 126 byte)) line.now }
{
    line.iter().position(|byte| !is_line_byte(*byte))
}

// The offset of the next byte that is no space, or the line's length.
fn skip_spaces(line: &[u8], from: usize) -> usize
    requires { from ≤ length line.now }
    ensures { Skipped line.now from result }
{
    for i in from..line.len() {
        if line[i] != b' ' {
            return i;
        }
    }
    line.len()
}

// Finds the words of a line, keeps where each starts and ends, and gives how many there are. There are places for 24 words.
pub fn split(line: &[u8], starts: &mut [usize], ends: &mut [usize]) -> Result<usize, Refusal>
    requires { (max_words ≤ length starts.old) × (max_words ≤ length ends.old) }
    ensures { SplitSays line.now starts.new ends.new result }
{
    if let Some(bad) = bad_byte(line) {
        return Err(Cause::BadLineByte.with(bad));
    }
    let mut count = 0;
    let mut at = skip_spaces(line, 0);
    // Each word tells where the next one starts, so there is no range to go over.
    while at < line.len() {
        let end = find_byte(line, at, b' ');
        if MAX_WORD < end - at {
            return Err(Cause::BadWord.with(at));
        }
        if MAX_WORDS <= count {
            return Err(Cause::BadWord.with(at));
        }
        starts[count] = at;
        ends[count] = end;
        count += 1;
        at = skip_spaces(line, end);
    }
    Ok(count)
}
