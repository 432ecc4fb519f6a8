// Tells which words are in the way of a line without a reading: those without which it has one. The line is read as ever, and where it gets 15 each word is
// left out in turn. What is returned for any bytes is defined in specs/Way, and what is promised of it in specs/WayDemands.
#![tactic(auto)]

ghost use Rattle.answer.specs.Answers.{Gives};
ghost use Rattle.opening.specs.Open.{IsOpen};
ghost use Rattle.in_the_way.specs.Way.{way_outcome};
ghost use Rattle.in_the_way.specs.WayDemands.{WayPromised};

use figures::limits::{CHART_WORDS, MAX_ENTRIES, MAX_WORDS};
use figures::refusals::{Cause, Refusal};
use left_out::try_each;
use line::words::check_line;
use opening::{OpenBook, open_book};
use words::read_words;

// What is answered of a line. `NoReading`: it is refused with 15, the value is 0, and bit k of `words` is set where the line without word k + 1 has a reading.
// `Ordinary`: what reading the line gives, for any line that is not refused with 15.
#[derive(Drop)]
pub enum WayAnswer {
    Ordinary(Result<usize, Refusal>),
    NoReading { words: u32 },
}

// Reads a line against an open book, and tells which words are in the way where it has no reading.
fn read_or_try(book: OpenBook<'_>, line: &[u8], answer: &mut [u16]) -> WayAnswer
    requires { IsOpen book.bytes.now book.names.now book.entries.now book.alike.now book.order.now book.targets.now }
    ensures { Gives (way_outcome book.entry.bytes.now line.now answer.old) result answer.new }
{
    let mut firsts = [0u16; MAX_WORDS];
    let mut same = [0u16; MAX_ENTRIES];
    let mut chart = [0u64; CHART_WORDS];
    let words = match check_line(
        book.bytes,
        book.entries,
        book.alike,
        line,
        &mut firsts,
        &mut same,
    ) {
        Ok(words) => words,
        Err(bad_line) => return WayAnswer::Ordinary(Err(bad_line)),
    };
    let read = read_words(
        book.bytes,
        book.names,
        book.entries,
        &same,
        &firsts[..words],
        book.order,
        book.targets,
        &mut chart,
        answer,
    );
    let Err(refusal) = read else {
        return WayAnswer::Ordinary(read);
    };
    if refusal.number != Cause::NoReading.number() {
        return WayAnswer::Ordinary(read);
    }
    let number = try_each(
        book.bytes,
        book.names,
        book.entries,
        &same,
        &mut firsts[..words],
        book.order,
        book.targets,
        &mut chart,
    );
    WayAnswer::NoReading { words: number }
}

// Reads a line against a book, and tells which words are in the way where it has no reading: any bytes, of any length, and any lent buffer. Book and line
// are not written to.
pub fn words_in_the_way(book: &[u8], line: &[u8], answer: &mut [u16]) -> WayAnswer
    ensures gives { Gives (way_outcome book.now line.now answer.old) result answer.new }
    ensures way_promised { WayPromised book.now line.now answer.old result answer.new }
{
    let opening = match open_book(book) {
        Ok(opening) => opening,
        Err(bad_book) => return WayAnswer::Ordinary(Err(bad_book)),
    };
    read_or_try(opening.lend(book), line, answer)
}
