// Which stretches of a line vanish. A line is a graph whose nodes are numbered from left to right; for each node the chart holds, as a row of
// bits, the nodes to which some path spells a string that vanishes.
#![tactic(auto)]

ghost use Rattle.std.specs.Prelude.{◌⊎◌, ◌<◌, length};
ghost use Rattle.pregroup.specs.Held.{InRows};
ghost use Rattle.figures.specs.Limits.{row_bits};
ghost use Rattle.bits.specs.Rows.{InRow, HasRow, RowSays};
ghost use Rattle.graph.specs.Graph.{graph, next_at};
ghost use Rattle.chart.specs.Chart.{FilledFrom, Fillable, SlotPart, SlotsThere, Joined, LinkPart, LinksThere};
ghost use Rattle.bits.specs.Gathered.{Gathered, Only};

use bits::rows;
use bits::rows::Row;
use graph::{entered_at, from_at, next_at, simple_at, to_at};
use pregroup::LinkKind;

// The row of boundary u: itself, and what the rows of the nodes have that its slots enter.
fn boundary_row(slots: &[u64], chart: &[u64], u: usize, from: usize, to: usize) -> Row
    requires u_lt_row_bits { u < row_bits }
    requires slots_there { SlotsThere slots.now chart.now from to }
    ensures { RowSays result.words 0 (Gathered (Only u) (SlotPart slots.now chart.now from to)) }
{
    let mut row = rows::put(rows::empty(), u);
    for s in from..to {
        row = rows::unite(row, chart, entered_at(slots, s));
    }
    row
}

// The row with that of the node behind y, where y is simple and x may contract with it.
fn join_row(order: &[u64], nodes: &[u64], chart: &[u64], row: Row, x: u16, y: usize) -> Row
    requires { (y < length nodes.now) × HasRow chart.now (next_at nodes.now y) }
    ensures { RowSays result.words 0 (λ v. InRow row.words 0 v
        ⊎ Joined (InRows order.now) nodes.now chart.now x y v) }
{
    match pregroup::may_contract(order, x, simple_at(nodes, y)) {
        LinkKind::Not => row,
        _ => {
            let next = next_at(nodes, y);
            if next == 0 {
                return row;
            }
            rows::unite(row, chart, next)
        }
    }
}

// The row of the simple node u: itself, and what it can be linked past. The first member of the row behind u is the node behind u, so it is not
// searched for.
fn simple_row(order: &[u64], nodes: &[u64], chart: &[u64], u: usize) -> Row
    requires u_lt_row_bits { u < row_bits }
    requires links_there { LinksThere nodes.now chart.now u }
    ensures { RowSays result.words 0
        (Gathered (Only u) (LinkPart (InRows order.now) nodes.now chart.now u)) }
{
    let behind = next_at(nodes, u);
    let x = simple_at(nodes, u);
    let only = rows::put(rows::empty(), u);
    let mut row = join_row(order, nodes, chart, only, x, behind);
    for y in rows::members(chart, behind, behind + 1) {
        row = join_row(order, nodes, chart, row, x, y);
    }
    row
}

// Fills the row of each node, from the last one down.
pub fn fill(order: &[u64], nodes: &[u64], slots: &[u64], chart: &mut [u64])
    requires { Fillable (graph nodes.now slots.now) chart.old }
    ensures { FilledFrom (InRows order.now) (graph nodes.now slots.now) chart.new 0 }
{
    for u in (0..nodes.len()).rev() {
        let row = if next_at(nodes, u) == 0 {
            boundary_row(slots, chart, u, from_at(nodes, u), to_at(nodes, u))
        } else {
            simple_row(order, nodes, chart, u)
        };
        rows::store(chart, u, row);
    }
}
