// Words that are looked up, without one of them: each is left out in turn, and the others are asked for a reading.
#![tactic(auto)]

ghost use Rattle.std.specs.Prelude.{◌≡◌, length};
ghost use Rattle.figures.specs.Limits.{chart_words};
ghost use Rattle.line.specs.FoundWords.{AreFound};
ghost use Rattle.left_out.specs.LeftOut.{IsWay};

use std::mem;
use words::has_reading;

// Leaves out each word in turn, from the last to the first, and tells by bit k whether the words without word k + 1 have a reading. The word left out before
// takes the place of the next one, so that the first places of `firsts` always have the other words in their order.
pub fn try_each(
    book: &[u8],
    names: &[u16],
    entries: &[u16],
    same: &[u16],
    firsts: &mut [u16],
    order: &[u64],
    targets: &[u8],
    chart: &mut [u64],
) -> u32
    requires are_found { AreFound book.now names.now entries.now same.now firsts.old order.now targets.now }
    requires chart_len { length chart.old ≡ chart_words }
    ensures { IsWay book.now names.now entries.now same.now firsts.old
        order.now targets.now result }
{
    let mut number: u32 = 0;
    let mut left_out: u16 = 0;
    let words = firsts.len();
    for k in (0..words).rev() {
        mem::swap(&mut firsts[k], &mut left_out);
        let reads = has_reading(
            book,
            names,
            entries,
            same,
            &firsts[..words - 1],
            order,
            targets,
            chart,
        );
        number = 2 * number + u32::from(reads);
    }
    number
}
