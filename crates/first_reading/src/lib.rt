// The first reading of words that are charted: the first choice up to the target that is reached, with its first linking, written as an answer.
#![tactic(auto)]

ghost use Rattle.pregroup.specs.Held.{InRows};
ghost use Rattle.graph.specs.Graph.{graph};
ghost use Rattle.first_reading.specs.Reached.{IsReached, ReachGives};

use answer::{answer_length, write_answer};
use choice::choose;
use figures::limits::{MAX_NODES, MAX_PLACES, TABLE_WORDS};
use figures::refusals::{Cause, Refusal};
use layout::end_at;

// Finds the first choice up to the end of target t, which the chart reaches as the first, and writes its first linking. It gives how many values the
// answer has.
pub fn write_reading(
    order: &[u64],
    nodes: &[u64],
    slots: &[u64],
    chart: &[u64],
    targets: &[u8],
    last: usize,
    t: usize,
    answer: &mut [u16],
) -> Result<usize, Refusal>
    requires { IsReached (InRows order.now) (graph nodes.now slots.now) targets.now last chart.now t }
    ensures { ReachGives (InRows order.now) (graph nodes.now slots.now) targets.now last chart.now t
        answer.old result answer.new }
{
    let end = end_at(last, t);
    let mut string = [0u16; MAX_PLACES];
    let mut chosen = [0u16; MAX_NODES];
    let mut table = [0u64; TABLE_WORDS];
    let mut needs = [0u64; TABLE_WORDS];
    let choice = choose(
        order,
        nodes,
        slots,
        chart,
        end,
        &mut string,
        &mut chosen,
        &mut table,
        &mut needs,
    );
    let words = choice.words - 1;
    let m = choice.places - 1;
    let needed = answer_length(words, m);
    if answer.len() < needed {
        return Err(Cause::BufferTooShort.with(needed));
    }
    write_answer(
        order,
        &string[..m],
        &table,
        targets[t],
        t,
        slots,
        &chosen[..words],
        answer,
    );
    Ok(needed)
}
