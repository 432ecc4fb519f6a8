// Reads a batch: up to 32 lines in one buffer, each closed by byte 10, against one book. The book is opened once, each line is read once, into a store
// of this call's own, and the answers are copied to the lent buffer when it is known that they fit. What reading any bytes comes to is defined in
// specs/Batch, and what is promised of it in specs/BatchDemands.
#![tactic(auto)]

ghost use Rattle.answer.specs.Answers.{Gives};
ghost use Rattle.batch.specs.Batch.{batch_outcome};
ghost use Rattle.batch.specs.BatchDemands.{BatchPromised};

use batch_lines::count_lines;
use batch_parts::{copy_front, read_parts};
use figures::limits::{CHART_WORDS, MAX_BATCH_VALUES, MAX_ENTRIES};
use figures::refusals::{Cause, Refusal};
use opening::open_book;

// Reads a batch of lines against a book: any bytes, of any length, and any lent buffer. Where the batch is read, the buffer holds a part for each of so many
// lines, refused ones included: how many values follow, the number of the line's refusal or 0, then its value or the answer. Where it is refused (17, a
// refusal of the book or 18), the buffer is as it was. Book and lines are not written to.
pub fn read_batch(book: &[u8], lines: &[u8], answers: &mut [u16]) -> Result<usize, Refusal>
    ensures gives { Gives (batch_outcome book.now lines.now answers.old) result answers.new }
    ensures batch_promised { BatchPromised book.now lines.now answers.old result answers.new }
{
    let Some(number_of_lines) = count_lines(lines) else {
        return Err(Cause::BadBatch.with(0));
    };
    // The lists stand in the arm that uses them. A list of the whole function is cleared at its start, for a refused batch too, and again where it is
    // made.
    match open_book(book) {
        Ok(opening) => {
            let mut same = [0u16; MAX_ENTRIES];
            let mut chart = [0u64; CHART_WORDS];
            let mut store = [0u16; MAX_BATCH_VALUES];
            let used = read_parts(opening.lend(book), &mut same, &mut chart, lines, &mut store);
            if answers.len() < used {
                return Err(Cause::AnswersTooLong.with(used));
            }
            copy_front(&store[..used], answers);
            Ok(number_of_lines)
        }
        Err(bad_book) => Err(bad_book),
    }
}
