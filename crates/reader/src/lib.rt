// Reads a line against a book: the book is opened, the line split and its words looked up, the entries found laid out as a
// graph, its chart filled, the first choice found, and its first linking written. What reading any bytes comes to is defined in specs/Outcome, and
// what is promised of it in specs/Demands.
#![tactic(auto)]

ghost use Rattle.std.specs.Prelude.{◌≡◌, length};
ghost use Rattle.figures.specs.Limits.{chart_words};
ghost use Rattle.lookup.specs.Threads.{Threaded};
ghost use Rattle.answer.specs.Answers.{Gives};
ghost use Rattle.opening.specs.Open.{IsOpen};
ghost use Rattle.reader.specs.Outcome.{outcome};
ghost use Rattle.reader.specs.Demands.{Promised};

use figures::limits::{CHART_WORDS, MAX_ENTRIES, MAX_WORDS};
use figures::refusals::Refusal;
use line::words::check_line;
use opening::{OpenBook, open_book};
use words::read_words;

// Reads a line against an open book. What `same` has is true of the book, before and after, so that one list serves all lines, and so does
// one list for their charts.
pub fn read_open(
    book: OpenBook<'_>,
    same: &mut [u16],
    chart: &mut [u64],
    line: &[u8],
    answer: &mut [u16],
) -> Result<usize, Refusal>
    requires fact { IsOpen book.bytes.now book.names.now book.entries.now book.alike.now book.order.now book.targets.now
        × Threaded book.bytes.now book.entries.now same.old }
    requires chart_len { length chart.old ≡ chart_words }
    ensures threaded { Threaded book.entry.bytes.now book.entry.entries.now same.new }
    ensures gives { Gives (outcome book.entry.bytes.now line.now answer.old) result answer.new }
{
    let mut firsts = [0u16; MAX_WORDS];
    let words = check_line(
        book.bytes,
        book.entries,
        book.alike,
        line,
        &mut firsts,
        same,
    )?;
    read_words(
        book.bytes,
        book.names,
        book.entries,
        same,
        &firsts[..words],
        book.order,
        book.targets,
        chart,
        answer,
    )
}

// Reads a line against a book: any bytes, of any length, and any lent buffer. Where the line is read, the buffer holds the answer, and so many of its
// values are the answer's. Where it is refused, the buffer is as it was. Book and line are not written to.
pub fn read_line(book: &[u8], line: &[u8], answer: &mut [u16]) -> Result<usize, Refusal>
    ensures gives { Gives (outcome book.now line.now answer.old) result answer.new }
    ensures promised { Promised book.now line.now answer.old result answer.new }
{
    let opening = open_book(book)?;
    let mut same = [0u16; MAX_ENTRIES];
    let mut chart = [0u64; CHART_WORDS];
    read_open(opening.lend(book), &mut same, &mut chart, line, answer)
}
