// The words of a line looked up in a book, and refusals 13 and 14.
ghost use Rattle.std.specs.Prelude.{◌≤◌, length};
ghost use Rattle.figures.specs.Limits.{max_words};
ghost use Rattle.book.specs.Format.{Book};
ghost use Rattle.lookup.specs.Entries.{KeptOf};
ghost use Rattle.lookup.specs.Threads.{Alike, Threaded};
ghost use Rattle.line.specs.Split.{SplitInto};
ghost use Rattle.line.specs.LookUp.{LookedUp, LineSays};

use crate::split::split;
use figures::limits::{MAX_LINE_SIMPLES, MAX_WORDS};
use figures::refusals::{Cause, Refusal};
use lookup::find::{find_word, tally};

// Looks up all words of a line, each once: each must have an entry (13), and all entries together not too many simple types (14). The first entry of
// each word goes into `firsts`, and `same` threads the others. It gives how many words there are.
fn look_up(
    book: &[u8],
    entries: &[u16],
    alike: &[u16],
    line: &[u8],
    starts: &[usize],
    ends: &[usize],
    firsts: &mut [u16],
    same: &mut [u16],
) -> Result<usize, Refusal>
    requires { ((B : Book) × KeptOf book.now entries.now B) × Alike book.now entries.now alike.now ×
        Threaded book.now entries.now same.old × SplitInto line.now starts.now ends.now ×
        (max_words ≤ length firsts.old) }
    ensures threaded { Threaded book.now entries.now same.new }
    ensures looked_up { (B : Book) → KeptOf book.now entries.now B
        → LookedUp book.now entries.now B line.now firsts.new same.new result }
{
    let mut sum = 0;
    // Three lists go by one number: an iterator over the three would be no plainer.
    for k in 0..starts.len() {
        let start = starts[k];
        let end = ends[k];
        let first = find_word(book, entries, alike, &line[start..end], same);
        if entries.len() <= first {
            return Err(Cause::UnknownWord.with(start));
        }
        firsts[k] = first as u16;
        sum += tally(book, entries, same, first);
    }
    if MAX_LINE_SIMPLES < sum {
        return Err(Cause::TooManySimples.with(0));
    }
    Ok(starts.len())
}

// Checks a line against a book whose entries are kept and threaded by their keys: how many words it has, by their threads, or the refusal 11 to 14 that
// it gets. What `same` has is true of the book, so that the next line can go on with it.
pub fn check_line(
    book: &[u8],
    entries: &[u16],
    alike: &[u16],
    line: &[u8],
    firsts: &mut [u16],
    same: &mut [u16],
) -> Result<usize, Refusal>
    requires { ((B : Book) × KeptOf book.now entries.now B) × Alike book.now entries.now alike.now ×
        Threaded book.now entries.now same.old × (max_words ≤ length firsts.old) }
    ensures threaded { Threaded book.now entries.now same.new }
    ensures line_says { (B : Book) → KeptOf book.now entries.now B
        → LineSays book.now entries.now B line.now firsts.new same.new result }
{
    let mut starts = [0usize; MAX_WORDS];
    let mut ends = [0usize; MAX_WORDS];
    let words = split(line, &mut starts, &mut ends)?;
    look_up(
        book,
        entries,
        alike,
        line,
        &starts[..words],
        &ends[..words],
        firsts,
        same,
    )
}
