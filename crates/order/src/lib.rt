// The order of a book: the reflexive and transitive closure of its pairs, computed once and held as 64 rows of 64 bits, with the number of
// its pairs. Bit q of row p says p ≤ q.
#![tactic(auto)]

ghost use Rattle.std.specs.Prelude.{◌<◌, ◌≡◌};
ghost use Rattle.bits.specs.Bits.{Members};
ghost use Rattle.pregroup.specs.Held.{InRows};
ghost use Rattle.order.specs.Closed.{Closed};
ghost use Rattle.figures.specs.Limits.{max_types};
ghost use Rattle.order.specs.Rows.{Hold, DeclaredRows, pairs_in};

use figures::limits::MAX_TYPES;

// A closed order. A row past the last type holds nothing.
#[derive(Drop)]
pub struct Order {
    pub rows: [u64; MAX_TYPES],
}

// All that stands at or above p: a walk along the pairs, with the types passed in `seen` and those ahead in `todo`.
fn reach(direct: &[u64; MAX_TYPES], p: u8) -> u64
    requires { p < max_types }
    ensures { Members result (Closed max_types (InRows direct.now) p) }
{
    let mut seen = 0u64;
    let mut todo = bits::with(0, p);
    // A `for` has nothing to go over: what lies ahead grows in each turn.
    while todo != 0 {
        let q = bits::lowest(todo);
        seen = bits::with(seen, q);
        todo = bits::minus(bits::union(todo, direct[q as usize]), seen);
    }
    seen
}

// The closure of a book's pairs, which are given as rows.
pub fn close(direct: &[u64; MAX_TYPES], types: usize) -> Order
    requires { DeclaredRows types direct.now }
    ensures { Hold result.rows (Closed types (InRows direct.now)) }
{
    let mut rows = [0u64; MAX_TYPES];
    for p in 0..types {
        rows[p] = reach(direct, p as u8);
    }
    Order { rows }
}

// How many pairs p ≤ q the order has, p ≤ p included.
pub fn count_pairs(order: Order) -> u64
    ensures { result ≡ pairs_in order.rows }
{
    order.rows.iter().map(|row| bits::count(*row)).sum()
}
