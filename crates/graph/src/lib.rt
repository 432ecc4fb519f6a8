// The graph of a line is defined in `specs/`. Here nodes and slots are put into numbers of 64 bits, and their parts are read where they stand.
#![tactic(auto, unfolding(crate::specs::Graph::simple_in, crate::specs::Graph::next_in, crate::specs::Graph::from_in, crate::specs::Graph::to_in, crate::specs::Graph::entered_in, crate::specs::Graph::number_in))]

ghost use Rattle.std.specs.Prelude.{◌<◌, ◌≡◌, ◌/◌, ◌%◌, length, get_or};
ghost use Rattle.figures.specs.Limits.{value_bound};
ghost use Rattle.graph.specs.Graph.{simple_in, next_in, from_in, to_in, entered_in, number_in, simple_at, next_at, from_at, to_at, entered_at, number_at};

// What a part is multiplied by, for the first to the fourth.
const FIRST: u64 = 1;

const SECOND: u64 = 65536;

const THIRD: u64 = SECOND * SECOND;

const FOURTH: u64 = SECOND * THIRD;

// A simple type with the node behind it.
pub fn simple_node(simple: u16, next: usize) -> u64
    requires { next < value_bound }
    ensures { (simple_in result ≡ simple) × (next_in result ≡ next) }
{
    simple as u64 + SECOND * next as u64
}

// A boundary, with the first of its slots and the one behind its last.
pub fn boundary_node(from: usize, to: usize) -> u64
    requires { (from < value_bound) × (to < value_bound) }
    ensures { (next_in result ≡ 0) × (from_in result ≡ from) × (to_in result ≡ to) }
{
    THIRD * (from as u64 + SECOND * to as u64)
}

// A slot: the node that it enters, and its entry's number.
pub fn slot_of(node: usize, number: usize) -> u64
    requires { (node < value_bound) × (number < value_bound) }
    ensures { (entered_in result ≡ node) × (number_in result ≡ number) }
{
    node as u64 + SECOND * number as u64
}

// The part of a number of a list that is multiplied by this.
fn part<const UNIT: u64>(numbers: &[u64], at: usize) -> u16
    requires { (at < length numbers.now) × (0 < UNIT) }
    ensures { result ≡ get_or numbers.now at 0 / UNIT % value_bound }
{
    (numbers[at] / UNIT % SECOND) as u16
}

// The simple type of node u.
pub fn simple_at(nodes: &[u64], u: usize) -> u16
    requires { u < length nodes.now }
    ensures { result ≡ simple_at nodes.now u }
{
    part::<FIRST>(nodes, u)
}

// The node behind node u, or 0 where u is a boundary: the definition `next_at` has that number.
pub fn next_at(nodes: &[u64], u: usize) -> usize
    requires { u < length nodes.now }
    ensures { result ≡ next_at nodes.now u }
{
    usize::from(part::<SECOND>(nodes, u))
}

// The first slot of boundary u.
pub fn from_at(nodes: &[u64], u: usize) -> usize
    requires { u < length nodes.now }
    ensures { result ≡ from_at nodes.now u }
{
    usize::from(part::<THIRD>(nodes, u))
}

// The slot behind the last one of boundary u.
pub fn to_at(nodes: &[u64], u: usize) -> usize
    requires { u < length nodes.now }
    ensures { result ≡ to_at nodes.now u }
{
    usize::from(part::<FOURTH>(nodes, u))
}

// The node that slot s enters.
pub fn entered_at(slots: &[u64], s: usize) -> usize
    requires { s < length slots.now }
    ensures { result ≡ entered_at slots.now s }
{
    usize::from(part::<FIRST>(slots, s))
}

// The number of the entry of slot s.
pub fn number_at(slots: &[u64], s: usize) -> u16
    requires { s < length slots.now }
    ensures { result ≡ number_at slots.now s }
{
    part::<SECOND>(slots, s)
}
