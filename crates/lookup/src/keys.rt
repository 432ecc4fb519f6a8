// Keys of words, and the entries of a book threaded by them.
ghost use Rattle.std.specs.Prelude.{◌≡◌, ◌≤◌, length};
ghost use Rattle.figures.specs.Limits.{max_word};
ghost use Rattle.lookup.specs.Entries.{Entries};
ghost use Rattle.lookup.specs.Threads.{key, NoneAlike, Alike};

use book::entries::entry_word;
use capitals::small_letter;
use figures::limits::MAX_ENTRIES;

// How many keys there are.
pub const KEYS: usize = 256;

// The places of the threads: one for each entry, with the next of its key, and behind them one for each key, with its first.
pub const PLACES: usize = MAX_ENTRIES + KEYS;

// What a thread ends with: no entry has this number.
pub const NO_ENTRY: u16 = MAX_ENTRIES as u16;

// The key of a word. Words that are the same have the same key.
#[tactic(auto, unfolding(crate::specs::Threads::key))]
pub fn key_of(word: &[u8]) -> usize
    requires { (1 ≤ length word.now) × (length word.now ≤ max_word) }
    ensures { result ≡ key word.now }
{
    let first = small_letter(word[0]);
    let last = small_letter(word[word.len() - 1]);
    (word.len() + 7 * usize::from(first) + 37 * usize::from(last)) % KEYS
}

// Threads the entries of a book by their keys, from the last to the first, so that each thread has them in the book's order.
#[tactic(auto, using(crate::proofs::KeyLaws::key_below))]
pub fn thread_entries(book: &[u8], entries: &[u16], alike: &mut [u16])
    requires { Entries book.now entries.now × NoneAlike alike.old }
    ensures { Alike book.now entries.now alike.new }
{
    for i in (0..entries.len()).rev() {
        let head = MAX_ENTRIES + key_of(entry_word(book, usize::from(entries[i])));
        alike[i] = alike[head];
        alike[head] = i as u16;
    }
}
