// An answer written into the lent buffer of 16-bit numbers: the target's number, the number of words, the numbers of their entries, the number
// of simple types, and their partners, which are found and written by `links`.
#![tactic(auto)]

mod links;
pub mod parts;

ghost use Rattle.std.specs.Prelude.{◌+◌, ◌≤◌, ◌<◌, ◌≡◌, ◌∷◌, ◌++◌, length, drop, set};
ghost use Rattle.pregroup.specs.Held.{InRows};
ghost use Rattle.figures.specs.Limits.{max_words, max_places, value_bound};
ghost use Rattle.answer.specs.Answers.{answer_length};
ghost use Rattle.answer.specs.Entries.{entry_numbers, Enterable};
ghost use Rattle.answer.specs.Written.{Linkable, Writable, WroteAnswer};

use figures::limits::ANSWER_HEAD;
use graph::number_at;

// Where the target's number and the number of words stand.
const TARGET: usize = ANSWER_HEAD - 3;

const WORDS: usize = ANSWER_HEAD - 2;

// How many values stand before the number of simple types, beside the entries.
const BEFORE_SIMPLES: usize = ANSWER_HEAD - 1;

// How many values an answer has.
pub fn answer_length(words: usize, simples: usize) -> usize
    requires { (words ≤ max_words) × (simples ≤ max_places) }
    ensures { result ≡ answer_length words simples }
{
    ANSWER_HEAD + words + simples
}

// Writes the target's number, the number of words and the number of the entry of each chosen slot.
fn write_entries(t: usize, slots: &[u64], chosen: &[u16], answer: &mut [u16])
    requires { Enterable t slots.now chosen.now answer.old }
    ensures { answer.new
        ≡ t ∷ length chosen.now ∷ (entry_numbers slots.now chosen.now ++ drop (length chosen.now + 2) answer.old) }
{
    answer[TARGET] = t as u16;
    answer[WORDS] = chosen.len() as u16;
    for (i, slot) in chosen.iter().enumerate() {
        answer[i + BEFORE_SIMPLES] = number_at(slots, usize::from(*slot));
    }
}

// Writes value number `at`.
fn write_count(answer: &mut [u16], at: usize, count: usize)
    requires { (at < length answer.old) × (count < value_bound) }
    ensures { answer.new ≡ set answer.old at count }
{
    answer[at] = count as u16;
}

// Writes the whole answer of the chosen slots, one a word, and of the string of their simple types, for the target that has number t.
pub fn write_answer(
    order: &[u64],
    string: &[u16],
    table: &[u64],
    target: u8,
    t: usize,
    slots: &[u64],
    chosen: &[u16],
    answer: &mut [u16],
)
    requires linkable { Linkable (InRows order.now) string.now table.now target }
    requires writable { Writable t slots.now chosen.now (length string.now) answer.old }
    ensures { WroteAnswer (InRows order.now) string.now target t slots.now chosen.now
        answer.old answer.new }
{
    let words = chosen.len();
    let simples = string.len();
    write_entries(t, slots, chosen, answer);
    write_count(answer, words + BEFORE_SIMPLES, simples);
    links::first_linking(order, string, target, table, answer, words + ANSWER_HEAD);
}
