// Lays a line out whose words are looked up: each word a boundary, then the simple types of its entries, and behind the last word the targets.
#![tactic(auto)]

ghost use Rattle.std.specs.Prelude.{◌≡◌, List, [], ◌∷◌, length, ◌≤◌};
ghost use Rattle.figures.specs.Limits.{max_nodes, max_targets};
ghost use Rattle.format.specs.Records.{bodies_at};
ghost use Rattle.linking.specs.Reading.{NumberedEntry, Words};
ghost use Rattle.lookup.specs.Threads.{Thread};
ghost use Rattle.line.specs.FoundWords.{ThreadedWords};
ghost use Rattle.graph.specs.Graph.{graph};
ghost use Rattle.layout.specs.LineLayout.{start_place, WordFits, WordsFit, Lined, end_at, nodes_with, GoalFits, GoalLaid, Ended, Standing, LaidOut};

use graph::{boundary_node, simple_node, slot_of};
use lookup::find::tally;
use pregroup::{EXPONENT_BIAS, hold};
use slots::{Place, lay_entries};

// The node at which target t ends, behind this last boundary.
pub fn end_at(last: usize, t: usize) -> usize
    requires { end_at last t ≤ max_nodes }
    ensures { result ≡ end_at last t }
{
    last + 2 + 2 * t
}

// How many nodes a line with this last boundary and so many targets has.
pub fn nodes_with(last: usize, targets: usize) -> usize
    requires { nodes_with last targets ≤ max_nodes }
    ensures { result ≡ nodes_with last targets }
{
    last + 1 + 2 * targets
}

// Lays a word at the boundary of a place: its entries, from the first one on, and the range of its slots. The place behind it is at the next
// boundary, which is known beforehand from the number of simple types.
fn lay_word(
    book: &[u8],
    names: &[u16],
    types: usize,
    entries: &[u16],
    same: &[u16],
    first: usize,
    p: Place,
    nodes: &mut [u64],
    slots: &mut [u64],
) -> Place
    requires { WordFits book.now names.now types entries.now same.now first p (graph nodes.old slots.old) }
    ensures { (es : List NumberedEntry) → Thread book.now (bodies_at book.now names.now types) entries.now same.now first es
        → (rest : Words) → Lined p (graph nodes.old slots.old) result (graph nodes.new slots.new) (es ∷ rest) rest }
{
    let boundary = p.node + 1 + tally(book, entries, same, first);
    let inside = Place {
        node: p.node + 1,
        slot: p.slot,
        seen: false,
    };
    let last = lay_entries(
        book, names, types, entries, same, first, boundary, inside, nodes, slots,
    );
    nodes[p.node] = boundary_node(p.slot, last.slot);
    Place {
        node: boundary,
        slot: last.slot,
        seen: false,
    }
}

// Lays all words of a line, given by the first entry of each, from its boundary to the next.
fn lay_words(
    book: &[u8],
    names: &[u16],
    types: usize,
    entries: &[u16],
    same: &[u16],
    firsts: &[u16],
    nodes: &mut [u64],
    slots: &mut [u64],
) -> Place
    requires { WordsFit book.now names.now types entries.now same.now firsts.now (graph nodes.old slots.old) }
    ensures { (ws : Words) → ThreadedWords book.now names.now types entries.now same.now firsts.now ws
        → Lined start_place (graph nodes.old slots.old) result (graph nodes.new slots.new) ws [] }
{
    let mut place = Place {
        node: 0,
        slot: 0,
        seen: false,
    };
    for first in firsts {
        place = lay_word(
            book,
            names,
            types,
            entries,
            same,
            usize::from(*first),
            place,
            nodes,
            slots,
        );
    }
    place
}

// Lays a target at a node: the slot leads to its right adjoint, and that to its end, the node behind it.
fn lay_goal(target: u8, node: usize, slot: usize, nodes: &mut [u64], slots: &mut [u64])
    requires { GoalFits node slot (graph nodes.old slots.old) }
    ensures { GoalLaid target node slot (graph nodes.old slots.old) (graph nodes.new slots.new) }
{
    let end = node + 1;
    slots[slot] = slot_of(node, 0);
    nodes[node] = simple_node(hold(target, EXPONENT_BIAS + 1), end);
    nodes[end] = boundary_node(0, 0);
}

// Lays the targets behind the last word: a boundary with a slot for each, in their order, and for each its right adjoint and an end of its own.
fn lay_goals(targets: &[u8], p: Place, nodes: &mut [u64], slots: &mut [u64])
    requires { Standing p (graph nodes.old slots.old) × (nodes_with p.node (length targets.now) ≤ max_nodes) }
    ensures { Ended targets.now p (graph nodes.old slots.old) (graph nodes.new slots.new) }
{
    for (t, target) in targets.iter().enumerate() {
        lay_goal(*target, p.node + 1 + 2 * t, p.slot + t, nodes, slots);
    }
    nodes[p.node] = boundary_node(p.slot, p.slot + targets.len());
}

// Lays a line out and returns its last boundary: a graph that goes up, from node 0 that of the line's words and the targets. The words are
// looked up before: `firsts` has the first entry of each, and `same` leads to the others. What the lists held means nothing.
pub fn lay_out(
    book: &[u8],
    names: &[u16],
    types: usize,
    entries: &[u16],
    same: &[u16],
    firsts: &[u16],
    targets: &[u8],
    nodes: &mut [u64],
    slots: &mut [u64],
) -> usize
    requires words_fit { WordsFit book.now names.now types entries.now same.now firsts.now (graph nodes.old slots.old) }
    requires targets_len_bound { length targets.now ≤ max_targets }
    ensures { (ws : Words) → ThreadedWords book.now names.now types entries.now same.now firsts.now ws
        → LaidOut ws targets.now (graph nodes.new slots.new) result }
{
    let last = lay_words(book, names, types, entries, same, firsts, nodes, slots);
    lay_goals(targets, last, nodes, slots);
    last.node
}
