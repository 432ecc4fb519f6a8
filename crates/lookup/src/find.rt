// A word found in a book: the thread of its entries, and how many simple types these have.
ghost use Rattle.std.specs.Prelude.{List, ℕ, ◌≤◌, length};
ghost use Rattle.figures.specs.Limits.{max_entries, max_word};
ghost use Rattle.linking.specs.Reading.{NumberedEntry};
ghost use Rattle.bytewise.specs.First.{First};
ghost use Rattle.format.specs.Records.{Bytes};
ghost use Rattle.lookup.specs.Entries.{Entries, Lexicon};
ghost use Rattle.lookup.specs.Threads.{key, OfWord, OfKey, Alike, Threaded, WordJoined, Finds, Thread, Tallied};

use crate::keys::key_of;
use crate::walk::thread;
use book::entries::{entry_length, entry_word};
use capitals::same_word;
use figures::limits::MAX_ENTRIES;

// The first of a word's entries on the thread of its key, from an entry on. Where there is none, the number that ends a thread (`Finds`).
fn seek(book: &[u8], entries: &[u16], alike: &[u16], word: &[u8], from: usize) -> usize
    requires { Entries book.now entries.now × Alike book.now entries.now alike.now × (from ≤ max_entries) }
    ensures upper_bound { result ≤ max_entries }
    ensures by_index { (a : ℕ) → First (OfKey book.now entries.now (key word.now)) a (length entries.now) from
        → First (OfWord book.now entries.now word.now) a (length entries.now) result }
{
    for (i, at) in thread(entries, alike, from) {
        if same_word(entry_word(book, at), word) {
            return i;
        }
    }
    MAX_ENTRIES
}

// Threads the entries of a word, from its first one on.
fn join(book: &[u8], entries: &[u16], alike: &[u16], word: &[u8], first: usize, same: &mut [u16])
    requires { Entries book.now entries.now × Alike book.now entries.now alike.now × (length entries.now ≤ length same.old) ×
        First (OfWord book.now entries.now word.now) 0 (length entries.now) first }
    ensures { WordJoined book.now entries.now word.now same.old same.new }
{
    // The loop writes the thread that it goes along, so there is none yet to walk.
    let mut i = first;
    while i < entries.len() {
        let next = seek(book, entries, alike, word, usize::from(alike[i]));
        same[i] = next as u16;
        i = next;
    }
}

// Finds a word: the number of its first entry is returned, and `same` has the thread of all. A word that was found before is threaded already.
#[tactic(auto, using(crate::proofs::KeyLaws::key_below))]
pub fn find_word(
    book: &[u8],
    entries: &[u16],
    alike: &[u16],
    word: &[u8],
    same: &mut [u16],
) -> usize
    requires { Entries book.now entries.now × Alike book.now entries.now alike.now ×
        Threaded book.now entries.now same.old × (1 ≤ length word.now) × (length word.now ≤ max_word) }
    ensures { Finds book.now entries.now word.now same.old same.new result }
{
    let head = usize::from(alike[MAX_ENTRIES + key_of(word)]);
    let first = seek(book, entries, alike, word, head);
    if first < entries.len() && same[first] == 0 {
        join(book, entries, alike, word, first, same);
    }
    first
}

// How many simple types the entries of a thread have together.
pub fn tally(book: &[u8], entries: &[u16], same: &[u16], first: usize) -> usize
    requires { (length entries.now ≤ length same.now) × ((names : List Bytes) × Lexicon book.now names entries.now
        × ((es : List NumberedEntry) × Thread book.now names entries.now same.now first es)) }
    ensures { (names : List Bytes) (es : List NumberedEntry) → Lexicon book.now names entries.now
        → Thread book.now names entries.now same.now first es → Tallied es result }
{
    let mut sum = 0;
    for (_, at) in thread(entries, same, first) {
        sum += entry_length(book, at);
    }
    sum
}
