// The first target that the chart of a line reaches: the first that has a reading.
#![tactic(auto)]

ghost use Rattle.reach.specs.Charted.{EndsThere, FirstReached};

use bits::rows::member;
use layout::end_at;

// The first of so many targets whose end the chart reaches from node 0.
pub fn first_target(chart: &[u64], last: usize, count: usize) -> Option<usize>
    requires { EndsThere chart.now last count }
    ensures { FirstReached chart.now last count result }
{
    (0..count).find(|t| member(chart, 0, end_at(last, *t)))
}
