// The letters that end the rows of simple types in a listing: `e` where a link joins the same basic type, `t` where it joins different ones.
#![tactic(auto)]

ghost use Rattle.std.specs.Prelude.{suc, ◌≤◌, ◌<◌, ◌≡◌, map, length, take};
ghost use Rattle.pregroup.specs.Held.{held, in_rows};
ghost use Rattle.letters.specs.Letters.{letter_of, link_at, next_letter, letters as Letters·letters};

use bytewise::widths::value_at;
use pregroup::{EXPONENT_BIAS, LinkKind, hold, may_contract};

const SAME: u8 = b'e';

const DIFFERENT: u8 = b't';

// The letter of a link.
fn letter_of(kind: LinkKind) -> u8
    ensures { result ≡ letter_of kind }
{
    match kind {
        LinkKind::Same => SAME,
        LinkKind::Not | LinkKind::Different => DIFFERENT,
    }
}

// How position i is linked to k, which does not stand before it. The unlinked simple type is its own partner, and is compared with the target.
fn link_at(order: &[u64], string: &[u16], target: u8, i: usize, k: usize) -> LinkKind
    requires { (1 ≤ i) × (i ≤ length string.now) × (i ≤ k) }
    ensures { result ≡ link_at (in_rows order.now) target (map held string.now) i k }
{
    if k == i {
        return may_contract(order, string[i - 1], hold(target, EXPONENT_BIAS + 1));
    }
    match string.get(k - 1) {
        Some(partner) => may_contract(order, string[i - 1], *partner),
        None => LinkKind::Not,
    }
}

// The letter of position i, with those of the positions before it: its partner's, where that stands before it, and else that of its link.
fn next_letter(
    order: &[u64],
    string: &[u16],
    target: u8,
    partners: &[u16],
    letters: &[u8],
    i: usize,
) -> u8
    requires { (1 ≤ i) × (i ≤ length string.now) × (i < length letters.now) }
    ensures { result ≡ next_letter (in_rows order.now) target (map held string.now) partners.now (take i letters.now) i }
{
    let partner = value_at(partners, i - 1);
    if partner < i {
        letters[partner]
    } else {
        letter_of(link_at(order, string, target, i, partner))
    }
}

// Writes the letters of all positions of a string, which count from 1. Each link is asked for once.
pub fn link_letters(order: &[u64], string: &[u16], target: u8, partners: &[u16], letters: &mut [u8])
    requires { length string.now < length letters.old }
    ensures { take (suc (length string.now)) letters.new
        ≡ Letters·letters (in_rows order.now) target (map held string.now) partners.now (length string.now) }
{
    letters[0] = DIFFERENT;
    for i in 1..=string.len() {
        letters[i] = next_letter(order, string, target, partners, letters, i);
    }
}
