// What is needed after so many places: rows of nodes, compared with those of the chart.
ghost use Rattle.std.specs.Prelude.{◌≡◌, ◌↔◌, true, ◌<◌, length};
ghost use Rattle.figures.specs.Limits.{row_words};
ghost use Rattle.bits.specs.Rows.{HasRow, RowSays};
ghost use Rattle.pregroup.specs.Held.{InRows};
ghost use Rattle.graph.specs.Graph.{next_at};
ghost use Rattle.chart.specs.Chart.{LinksThere};
ghost use Rattle.choice.specs.Sets.{Meets, MeetsIn, LinksTo, Partner};

use bits::rows;
use bits::rows::Row;
use figures::limits::ROW_WORDS;
use graph::{next_at, simple_at};
use pregroup::LinkKind;

// Whether row u of the chart and row n of the needs have a member in common in word k.
pub(crate) fn meets_in(chart: &[u64], u: usize, needs: &[u64], n: usize, k: usize) -> bool
    requires k_lt_row_words { k < row_words }
    requires has_row { HasRow chart.now u × HasRow needs.now n }
    ensures { (result ≡ true) ↔ MeetsIn chart.now u needs.now n k }
{
    bits::both(chart[ROW_WORDS * u + k], needs[ROW_WORDS * n + k]) != 0
}

// Whether row u of the chart and row n of the needs have a member in common.
fn meets(chart: &[u64], u: usize, needs: &[u64], n: usize) -> bool
    requires { HasRow chart.now u × HasRow needs.now n }
    ensures { (result ≡ true) ↔ Meets chart.now u needs.now n }
{
    (0..ROW_WORDS).any(|k| meets_in(chart, u, needs, n, k))
}

// Whether y is simple, x may contract with it, and what is needed after n places can be reached from behind it.
fn links_to(
    order: &[u64],
    nodes: &[u64],
    chart: &[u64],
    needs: &[u64],
    n: usize,
    x: u16,
    y: usize,
) -> bool
    requires y_in_bounds { y < length nodes.now }
    requires has_row { HasRow chart.now (next_at nodes.now y) × HasRow needs.now n }
    ensures { (result ≡ true)
        ↔ LinksTo (InRows order.now) nodes.now chart.now needs.now n x y }
{
    let kind = pregroup::may_contract(order, x, simple_at(nodes, y));
    let next = next_at(nodes, y);
    !matches!(kind, LinkKind::Not) && next != 0 && meets(chart, next, needs, n)
}

// The nodes that the simple node u, chosen behind n places, may be linked to. The first member of the row behind u is the node behind u.
pub(crate) fn partners(
    order: &[u64],
    nodes: &[u64],
    chart: &[u64],
    needs: &[u64],
    n: usize,
    u: usize,
) -> Row
    requires { LinksThere nodes.now chart.now u × HasRow needs.now n }
    ensures { RowSays result.words 0
        (Partner (InRows order.now) nodes.now chart.now needs.now n u) }
{
    let behind = next_at(nodes, u);
    let x = simple_at(nodes, u);
    rows::members_where(chart, behind, behind, 0, |y| {
        links_to(order, nodes, chart, needs, n, x, y)
    })
}
