// Words that are looked up are read, or only asked whether they have a reading.
#![tactic(auto)]

ghost use Rattle.std.specs.Prelude.{◌≡◌, length};
ghost use Rattle.figures.specs.Limits.{chart_words};
ghost use Rattle.line.specs.FoundWords.{AreFound};
ghost use Rattle.words.specs.Readings.{ReadsOrAsks, ReadsWords, SaysWhether};

use chart::fill;
use figures::limits::MAX_NODES;
use figures::refusals::{Cause, Refusal};
use first_reading::write_reading;
use layout::{lay_out, nodes_with};
use reach::first_target;

// Reads words that are looked up: `firsts` has the first entry of each, and `same` leads to the others. They are laid out as a graph, and its chart tells the
// first target that has a reading. Where the reading is not wanted whole, it is only told whether there is one: it is then answered with no values, and
// nothing is written. A flag tells the two apart: two functions that lend their lists to a third took 1.22 times the instructions for a chart.
fn read_or_ask(
    book: &[u8],
    names: &[u16],
    entries: &[u16],
    same: &[u16],
    firsts: &[u16],
    order: &[u64],
    targets: &[u8],
    chart: &mut [u64],
    whole: bool,
    answer: &mut [u16],
) -> Result<usize, Refusal>
    requires are_found { AreFound book.now names.now entries.now same.now firsts.now order.now targets.now }
    requires chart_len { length chart.old ≡ chart_words }
    ensures { ReadsOrAsks book.now names.now entries.now same.now firsts.now order.now targets.now
        whole answer.old result answer.new }
{
    let mut nodes = [0u64; MAX_NODES];
    let mut slots = [0u64; MAX_NODES];
    let last = lay_out(
        book,
        names,
        order.len(),
        entries,
        same,
        firsts,
        targets,
        &mut nodes,
        &mut slots,
    );
    let count = nodes_with(last, targets.len());
    fill(order, &nodes[..count], &slots, chart);
    let Some(t) = first_target(chart, last, targets.len()) else {
        return Err(Cause::NoReading.with(0));
    };
    if whole {
        return write_reading(
            order,
            &nodes[..count],
            &slots,
            chart,
            targets,
            last,
            t,
            answer,
        );
    }
    Ok(0)
}

// Reads words that are looked up.
pub fn read_words(
    book: &[u8],
    names: &[u16],
    entries: &[u16],
    same: &[u16],
    firsts: &[u16],
    order: &[u64],
    targets: &[u8],
    chart: &mut [u64],
    answer: &mut [u16],
) -> Result<usize, Refusal>
    requires are_found { AreFound book.now names.now entries.now same.now firsts.now order.now targets.now }
    requires chart_len { length chart.old ≡ chart_words }
    ensures { ReadsWords book.now names.now entries.now same.now firsts.now order.now targets.now
        answer.old result answer.new }
{
    read_or_ask(
        book, names, entries, same, firsts, order, targets, chart, true, answer,
    )
}

// Whether words that are looked up have a reading, for any target.
pub fn has_reading(
    book: &[u8],
    names: &[u16],
    entries: &[u16],
    same: &[u16],
    firsts: &[u16],
    order: &[u64],
    targets: &[u8],
    chart: &mut [u64],
) -> bool
    requires are_found { AreFound book.now names.now entries.now same.now firsts.now order.now targets.now }
    requires chart_len { length chart.old ≡ chart_words }
    ensures { SaysWhether book.now names.now entries.now same.now firsts.now order.now targets.now result }
{
    let mut nothing = [0u16; 0];
    read_or_ask(
        book,
        names,
        entries,
        same,
        firsts,
        order,
        targets,
        chart,
        false,
        &mut nothing,
    )
    .is_ok()
}
