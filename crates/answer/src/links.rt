// The first linking of a string that reduces to the target, given the table of what vanishes: each position stays unlinked if it can, and
// else takes the nearest partner that leaves the rest linkable. Partners count from 1.
ghost use Rattle.std.specs.Prelude.{◌+◌, ◌<◌, ◌≡◌, ◌↔◌, true, length, set};
ghost use Rattle.pregroup.specs.Held.{InRows};
ghost use Rattle.pregroup.specs.Vanish.{Reduces};
ghost use Rattle.figures.specs.Limits.{max_places};
ghost use Rattle.bits.specs.Rows.{InRow, HasRow, RowSays};
ghost use Rattle.table.specs.Table.{string_of, StringThere, Bounded};
ghost use Rattle.answer.specs.Links.{Stays, Closes, NearestLink, EndRowThere, with_link, LinkingThere, LinkedWithin, LinkedFrom, ReducingThere, FirstLinked};

use bits::rows;
use bits::rows::Row;
use figures::limits::ROW_BITS;
use pregroup::LinkKind;

// Whether i may stay unlinked: its simple type may remain, and what stands behind it vanishes.
fn may_stay(order: &[u64], string: &[u16], target: u8, table: &[u64], i: usize) -> bool
    requires i_in_bounds { i < length string.now }
    requires string_there { StringThere string.now (length string.now) }
    requires has_row { HasRow table.now (length string.now) }
    ensures { (result ≡ true)
        ↔ Stays (InRows order.now) target string.now table.now (length string.now) i }
{
    pregroup::may_remain(order, string[i], target) && rows::member(table, string.len(), i + 1)
}

// Whether i may be linked to k: they could contract, and what stands between them vanishes.
fn may_close(order: &[u64], string: &[u16], table: &[u64], i: usize, k: usize) -> bool
    requires i_lt_k { i < k }
    requires string_there { StringThere string.now (k + 1) }
    requires has_row { HasRow table.now k }
    ensures { (result ≡ true) ↔ Closes (InRows order.now) string.now table.now i k }
{
    match pregroup::may_contract(order, string[i], string[k]) {
        LinkKind::Not => false,
        _ => rows::member(table, k, i + 1),
    }
}

// The nearest k that i may be linked to such that k + 1 is in row e of `ends`; `ROW_BITS` where there is none.
fn nearest(order: &[u64], string: &[u16], table: &[u64], ends: &[u64], e: usize, i: usize) -> usize
    requires i_lt_max_places { i < max_places }
    requires end_row_there { EndRowThere string.now table.now ends.now e }
    ensures { NearestLink (InRows order.now) string.now table.now ends.now e i result }
{
    for j in rows::members(ends, e, i + 2) {
        if may_close(order, string, table, i, j - 1) {
            return j - 1;
        }
    }
    // `ROW_BITS` says that there is none, as `NearestLink` has it.
    ROW_BITS
}

// Writes i as its own partner. The whole buffer goes with the place `at` of the partners, since the definitions of specs/Links name both.
fn write_stay(answer: &mut [u16], at: usize, i: usize)
    requires i_lt_max_places { i < max_places }
    requires i_in_bounds { at + i < length answer.old }
    ensures { answer.new ≡ set answer.old (at + i) (i + 1) }
{
    answer[at + i] = (i + 1) as u16;
}

// Writes i and k as partners of each other.
fn write_link(answer: &mut [u16], at: usize, i: usize, k: usize)
    requires i_lt_k { (i < k) × (k < max_places) }
    requires k_in_bounds { at + k < length answer.old }
    ensures { answer.new ≡ with_link answer.old at i k }
{
    answer[at + i] = (k + 1) as u16;
    answer[at + k] = (i + 1) as u16;
}

// The places that may stay unlinked.
fn staying(order: &[u64], string: &[u16], target: u8, table: &[u64]) -> Row
    requires string_there { StringThere string.now (length string.now) }
    requires has_row { HasRow table.now (length string.now) × Bounded table.now (length string.now) }
    ensures { RowSays result.words 0
        (Stays (InRows order.now) target string.now table.now (length string.now)) }
{
    rows::members_where(table, string.len(), 1, 1, |i| {
        pregroup::may_remain(order, string[i], target)
    })
}

// Writes the partners of the stretch from i up to j, which vanishes: each the nearest that leaves the rest vanishing.
fn link_within(
    order: &[u64],
    string: &[u16],
    table: &[u64],
    i: usize,
    j: usize,
    answer: &mut [u16],
    at: usize,
)
    requires linking_there { LinkingThere (InRows order.now) string.now table.now answer.old at j }
    requires in_row { InRow table.now j i }
    ensures { LinkedWithin (InRows order.now) string.now answer.old answer.new at i j }
{
    if i < j {
        let k = nearest(order, string, table, table, j, i);
        write_link(answer, at, i, k);
        link_within(order, string, table, i + 1, k, answer, at);
        link_within(order, string, table, k + 1, j, answer, at);
    }
}

// Writes the partners of the string from i on, which reduces to the target. Row 0 of `ends` has the places from which it does.
fn link_from(
    order: &[u64],
    string: &[u16],
    target: u8,
    table: &[u64],
    ends: &[u64],
    i: usize,
    answer: &mut [u16],
    at: usize,
)
    requires linking_there { LinkingThere (InRows order.now) string.now table.now answer.old at (length string.now) }
    requires reducing_there { ReducingThere (InRows order.now) target (string_of string.now (length string.now)) ends.now i }
    ensures { LinkedFrom (InRows order.now) target string.now answer.old answer.new at
        (length string.now) i }
{
    if may_stay(order, string, target, table, i) {
        write_stay(answer, at, i);
        link_within(order, string, table, i + 1, string.len(), answer, at);
    } else {
        let k = nearest(order, string, table, ends, 0, i);
        write_link(answer, at, i, k);
        link_within(order, string, table, i + 1, k, answer, at);
        link_from(order, string, target, table, ends, k + 1, answer, at);
    }
}

// Writes the first linking of the string, which reduces to the target, into `answer` from `at` on: a partner for each simple type. `ends` has
// the places from which the string reduces: what stands between such a place and one that may stay vanishes.
pub(crate) fn first_linking(
    order: &[u64],
    string: &[u16],
    target: u8,
    table: &[u64],
    answer: &mut [u16],
    at: usize,
)
    requires linking_there { LinkingThere (InRows order.now) string.now table.now answer.old at (length string.now) }
    requires reduces { Reduces (InRows order.now) target (string_of string.now (length string.now)) }
    ensures { FirstLinked (InRows order.now) target (string_of string.now (length string.now))
        answer.old answer.new at }
{
    let stays = staying(order, string, target, table);
    let row = rows::unite_all(rows::empty(), table, stays);
    let ends = row.words;
    link_from(order, string, target, table, &ends, 0, answer, at);
}
