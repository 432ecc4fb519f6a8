// The pregroup calculus. Nearly all of this crate is specs/ and proofs/; its code are the tests how two simple types may contract and
// whether one may be left over, over numbers as the layers above hold them: one for a simple type, a row of 64 bits for each basic type.
#![tactic(auto)]

ghost use Rattle.std.specs.Prelude.{◌≡◌, ◌↔◌, true};
ghost use Rattle.pregroup.specs.Vanish.{Contracts, Remains};
ghost use Rattle.pregroup.specs.Tests.{link_kind};
ghost use Rattle.pregroup.specs.Held.{lowered, held, InRows, in_rows};

// What is added to an exponent to hold it in a byte. It is even, so that parity is kept.
pub const EXPONENT_BIAS: u8 = 8;

// Whether p stands at or below q by the rows: bit q of row p. A row or a bit that is not there says no.
pub fn stands_below(rows: &[u64], p: u8, q: u8) -> bool
    ensures { (result ≡ true) ↔ InRows rows.now p q }
{
    rows.get(p as usize).is_some_and(|row| bits::has(*row, q))
}

// A basic type and an exponent raised by the bias, held in one number. It is no struct: nodes and strings hold 16 bits, and public contracts name them.
pub fn hold(base: u8, raised: u8) -> u16
    ensures { held result ≡ lowered base raised }
{
    u16::from(raised) * 256 + u16::from(base)
}

// Whether the simple types that x and y hold, in this order, could contract.
fn contracts(rows: &[u64], x: u16, y: u16) -> bool
    ensures { (result ≡ true) ↔ Contracts (InRows rows.now) (held x) (held y) }
{
    let earlier = x / 256;
    // Most pairs end here, so nothing is made ready before.
    if y / 256 != earlier + 1 {
        return false;
    }
    let a = (x % 256) as u8;
    let b = (y % 256) as u8;
    if earlier % 2 == 0 {
        stands_below(rows, a, b)
    } else {
        stands_below(rows, b, a)
    }
}

// How two simple types, in this order, may contract: not at all, with the same basic type, or with different ones, which the order relates.
#[derive(Clone, Copy, PartialEq, Eq)]
pub enum LinkKind {
    Not,
    Same,
    Different,
}

// How the simple types that x and y hold, in this order, may contract.
pub fn may_contract(rows: &[u64], x: u16, y: u16) -> LinkKind
    ensures { result ≡ link_kind (in_rows rows.now) (held x) (held y) }
{
    if !contracts(rows, x, y) {
        LinkKind::Not
    } else if x % 256 == y % 256 {
        LinkKind::Same
    } else {
        LinkKind::Different
    }
}

// Whether the simple type that x holds is plain and stands at or below the basic type s.
pub fn may_remain(rows: &[u64], x: u16, s: u8) -> bool
    ensures { (result ≡ true) ↔ Remains (InRows rows.now) s (held x) }
{
    x / 256 == u16::from(EXPONENT_BIAS) && stands_below(rows, (x % 256) as u8, s)
}
