// The first choice of a line: entry by entry, by the rows of the chart, the table of the string that is chosen so far, and for each of its places a row
// of the nodes that are needed there.
#![tactic(auto)]

mod needs;

ghost use Rattle.pregroup.specs.Held.{InRows};
ghost use Rattle.graph.specs.Graph.{graph};
ghost use Rattle.choice.specs.First.{Roomy, Choosable, Chose};
ghost use Rattle.choice.specs.Sets.{Started, Startable, Grew, Growable, FirstSlot, Searchable};

use bits::rows;
use figures::limits::ROW_WORDS;
use graph::{entered_at, from_at, next_at, simple_at, to_at};

// Makes the rows of the empty string: the end is needed.
fn start(end: usize, table: &mut [u64], needs: &mut [u64])
    requires { Startable end table.old needs.old }
    ensures { Started end table.new needs.new }
{
    table::begin(table);
    rows::store(needs, 0, rows::put(rows::empty(), end));
}

// Makes the rows of one simple type more, that of node u at place n. What is needed behind it: a node that it may be linked to; or, where it closes a
// place, what was needed there.
fn grow(
    order: &[u64],
    nodes: &[u64],
    chart: &[u64],
    u: usize,
    string: &[u16],
    n: usize,
    table: &mut [u64],
    needs: &mut [u64],
)
    requires { Growable (InRows order.now) nodes.now chart.now string.now n u table.old needs.old }
    ensures { Grew (InRows order.now) nodes.now chart.now string.now n u
        needs.old table.new needs.new }
{
    let partners = needs::partners(order, nodes, chart, needs, n, u);
    let closed = table::extend(order, string, n, table);
    let row = rows::unite_all(partners, needs, closed);
    rows::store(needs, n + 1, row);
}

// The first slot from whose node the string of n places is finished: a search over slots and over the nodes that are needed, which part the rest into
// what vanishes and what the open link closes on; 64 nodes at a time, and left from inside once one is found. Where there is none, which no caller
// meets, the result is not below `to`.
fn first_slot(
    slots: &[u64],
    chart: &[u64],
    needs: &[u64],
    n: usize,
    from: usize,
    to: usize,
) -> usize
    requires { Searchable slots.now chart.now needs.now n from to }
    ensures { FirstSlot slots.now chart.now needs.now n from to result }
{
    let mut first = from.max(to);
    'search: for s in from..to {
        let node = entered_at(slots, s);
        for k in 0..ROW_WORDS {
            if needs::meets_in(chart, node, needs, n, k) {
                first = s;
                break 'search;
            }
        }
    }
    first
}

// How many words the choice has, and how many simple types.
#[derive(Drop)]
pub struct Chosen {
    pub words: usize,
    pub places: usize,
}

// The first choice of a line that reads: the slot of each word into `chosen`, its simple types into `string`, and the table of that string into
// `table`. `needs` is for rows on the way.
pub fn choose(
    order: &[u64],
    nodes: &[u64],
    slots: &[u64],
    chart: &[u64],
    end: usize,
    string: &mut [u16],
    chosen: &mut [u16],
    table: &mut [u64],
    needs: &mut [u64],
) -> Chosen
    requires choosable { Choosable (InRows order.now) (graph nodes.now slots.now) chart.now end }
    requires roomy { Roomy (graph nodes.now slots.now) string.old chosen.old table.old needs.old }
    ensures { Chose (InRows order.now) (graph nodes.now slots.now)
        string.new chosen.new table.new end result.words result.places }
{
    start(end, table, needs);
    let mut u = 0;
    let mut words = 0;
    let mut places = 0;
    // A walk along the graph, so that no index counts.
    while u != end {
        let next = next_at(nodes, u);
        if next == 0 {
            let slot = first_slot(
                slots,
                chart,
                needs,
                places,
                from_at(nodes, u),
                to_at(nodes, u),
            );
            chosen[words] = slot as u16;
            words += 1;
            u = entered_at(slots, slot);
        } else {
            string[places] = simple_at(nodes, u);
            grow(order, nodes, chart, u, string, places, table, needs);
            places += 1;
            u = next;
        }
    }
    Chosen { words, places }
}
