// The reader for callers in C and other languages: one function for each entry, with numbers in the place of its result, and one for the
// version. A slice is passed as a pointer and a length. What the numbers mean is defined in specs/Calls.
#![tactic(auto)]

ghost use Rattle.std.specs.Prelude.{◌≡◌, [], ◌∷◌};
ghost use Rattle.book.specs.Check.{book_check, check_reply};
ghost use Rattle.answer.specs.Answers.{Gives};
ghost use Rattle.reader.specs.Outcome.{outcome};
ghost use Rattle.reader.specs.Demands.{Promised};
ghost use Rattle.batch.specs.Batch.{batch_outcome};
ghost use Rattle.batch.specs.BatchDemands.{BatchPromised};
ghost use Rattle.in_the_way.specs.Way.{way_outcome};
ghost use Rattle.in_the_way.specs.WayDemands.{WayPromised};
ghost use Rattle.vurzhelik.specs.Calls.{number_for, value_for, answer_of, batch_answer_of, way_answer_of, Checks, WithFifteen};
ghost use Rattle.vurzhelik.specs.Version.{version};

use batch::read_batch;
use book::check_book;
use figures::refusals::{Cause, Refusal};
use in_the_way::{WayAnswer, words_in_the_way};
use reader::read_line;

// The version of the interface. `specs/Version` has the same numbers for the contract, and `include/vurzhelik.h` for callers.
const MAJOR: u32 = 2;

const MINOR: u32 = 2;

const PATCH: u32 = 0;

// The version as one number, so that a caller can compare it with its header's.
#[unsafe(no_mangle)]
pub extern "C" fn vurzhelik_version() -> u32
    ensures { result ≡ version }
{
    10000 * MAJOR + 100 * MINOR + PATCH
}

// Checks a book alone: any bytes, of any length. 0: `types`, `entries` and `pairs` hold the book's three numbers, and `value` holds 0.
// Else it is refused: the number of the refusal is returned, `value` holds the value returned with it, and the three are as they were.
#[unsafe(no_mangle)]
pub extern "C" fn vurzhelik_check_book(
    book: &[u8],
    value: &mut u64,
    types: &mut u64,
    entries: &mut u64,
    pairs: &mut u64,
) -> u32
    ensures { Checks (check_reply (book_check book.now))
        (types.old ∷ entries.old ∷ pairs.old ∷ []) result value.new
        (types.new ∷ entries.new ∷ pairs.new ∷ []) }
{
    match check_book(book) {
        Err(refusal) => {
            *value = refusal.value as u64;
            refusal.number
        }
        Ok(check) => {
            *value = 0;
            *types = check.types as u64;
            *entries = check.entries as u64;
            *pairs = check.pairs;
            0
        }
    }
}

// Hands a line's answer on as a number, which is returned, and a value.
fn hand_on(answer: Result<usize, Refusal>, value: &mut u64) -> u32
    ensures { (result ≡ number_for answer) × (value.new ≡ value_for answer) }
{
    match answer {
        Err(refusal) => {
            *value = refusal.value as u64;
            refusal.number
        }
        Ok(values) => {
            *value = values as u64;
            0
        }
    }
}

// Reads a line against a book: any bytes, of any length, and any lent buffer. 0: the buffer holds the answer, and `value` holds how many
// of its values are the answer's. Else it is refused: the number of the refusal is returned, `value` holds the value returned with it,
// and the buffer is as it was. Book and line are not written to.
#[unsafe(no_mangle)]
pub extern "C" fn vurzhelik_read_line(
    book: &[u8],
    line: &[u8],
    answer: &mut [u16],
    value: &mut u64,
) -> u32
    ensures gives { Gives (outcome book.now line.now answer.old) (answer_of result value.new) answer.new }
    ensures promised { Promised book.now line.now answer.old (answer_of result value.new) answer.new }
{
    hand_on(read_line(book, line, answer), value)
}

// Reads a line against a book, as `vurzhelik_read_line` does, and tells which words are in the way of one without a reading. 15: bit k of `words` is set where
// the line without word k + 1 has a reading, and `value` holds 0. Else all is as with `vurzhelik_read_line`, and `words` is as it was.
#[unsafe(no_mangle)]
pub extern "C" fn vurzhelik_words_in_the_way(
    book: &[u8],
    line: &[u8],
    answer: &mut [u16],
    value: &mut u64,
    words: &mut u32,
) -> u32
    ensures gives { Gives (way_outcome book.now line.now answer.old) (way_answer_of result value.new words.new) answer.new }
    ensures way_promised { WayPromised book.now line.now answer.old (way_answer_of result value.new words.new) answer.new }
    ensures with_fifteen { WithFifteen result value.new words.old words.new }
{
    match words_in_the_way(book, line, answer) {
        WayAnswer::NoReading { words: in_the_way } => {
            *value = 0;
            *words = in_the_way;
            Cause::NoReading.number()
        }
        WayAnswer::Ordinary(ordinary) => hand_on(ordinary, value),
    }
}

// Reads a batch of lines, each closed by byte 10, against a book: any bytes, of any length, and any lent buffer. 0: the buffer holds the answers, and
// `value` holds how many lines there are. Else it is refused: the number of the refusal is returned, `value` holds the value returned with it, and the
// buffer is as it was. Book and lines are not written to.
#[unsafe(no_mangle)]
pub extern "C" fn vurzhelik_read_batch(
    book: &[u8],
    lines: &[u8],
    answers: &mut [u16],
    value: &mut u64,
) -> u32
    ensures gives { Gives (batch_outcome book.now lines.now answers.old) (batch_answer_of result value.new) answers.new }
    ensures batch_promised { BatchPromised book.now lines.now answers.old (batch_answer_of result value.new) answers.new }
{
    match read_batch(book, lines, answers) {
        Err(refusal) => {
            *value = refusal.value as u64;
            refusal.number
        }
        Ok(answered) => {
            *value = answered as u64;
            0
        }
    }
}
