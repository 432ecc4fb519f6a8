// The entries of a word laid out: each type on nodes, each entry in a slot of the word's boundary, in lists that a caller lends.
#![tactic(auto)]

ghost use Rattle.std.specs.Prelude.{List, [], ◌∷◌};
ghost use Rattle.format.specs.Records.{bodies_at};
ghost use Rattle.linking.specs.Reading.{NumberedEntry};
ghost use Rattle.lookup.specs.Threads.{Thread};
ghost use Rattle.graph.specs.Graph.{graph};
ghost use Rattle.slots.specs.Laying.{type_held, TypeFits, Typed, SlotFits, Lays, EntriesFit};

use book::EntryType;
use book::entries::entry_type;
use graph::{simple_node, slot_of};
use lookup::walk::thread;

// How far the lists are filled: the next node, the next slot, and whether the word at hand has a slot with an empty type.
#[derive(Clone, Copy)]
pub struct Place {
    pub node: usize,
    pub slot: usize,
    pub seen: bool,
}

// Lays the simple types of an entry from `node` on, from the last to the first, each leading to the one behind it and the last to the
// boundary. The node where the type begins is returned: for an empty one the boundary.
fn lay_type(t: &EntryType, node: usize, boundary: usize, nodes: &mut [u64]) -> usize
    requires { TypeFits t.now node boundary nodes.old }
    ensures { Typed t.now node boundary nodes.old nodes.new result }
{
    let mut first = boundary;
    for i in (0..t.count).rev() {
        let at = node + i;
        nodes[at] = simple_node(t.simples[i], first);
        first = at;
    }
    first
}

// Gives an entry a slot and lays its type, but for a second empty type of a word.
fn lay_slot(
    t: &EntryType,
    number: usize,
    boundary: usize,
    p: Place,
    nodes: &mut [u64],
    slots: &mut [u64],
) -> Place
    requires { SlotFits t.now number boundary p (graph nodes.old slots.old) }
    ensures { (rest : List NumberedEntry) → Lays boundary p (graph nodes.old slots.old) result
        (graph nodes.new slots.new) (record { number = number; type = type_held t.now } ∷ rest) rest }
{
    let empty = t.count == 0;
    if empty && p.seen {
        return p;
    }
    let first = lay_type(t, p.node, boundary, nodes);
    slots[p.slot] = slot_of(first, number);
    Place {
        node: p.node + t.count,
        slot: p.slot + 1,
        seen: empty | p.seen,
    }
}

// Lays the entries of a thread, in their order, before the boundary behind the word.
pub fn lay_entries(
    book: &[u8],
    names: &[u16],
    types: usize,
    entries: &[u16],
    same: &[u16],
    first: usize,
    boundary: usize,
    p: Place,
    nodes: &mut [u64],
    slots: &mut [u64],
) -> Place
    requires { EntriesFit book.now names.now types entries.now same.now first boundary p (graph nodes.old slots.old) }
    ensures { (es : List NumberedEntry) → Thread book.now (bodies_at book.now names.now types) entries.now same.now first es
        → Lays boundary p (graph nodes.old slots.old) result (graph nodes.new slots.new) es [] }
{
    let mut place = p;
    for (i, at) in thread(entries, same, first) {
        let t = entry_type(book, names, types, at);
        place = lay_slot(&t, i, boundary, place, nodes, slots);
    }
    place
}
