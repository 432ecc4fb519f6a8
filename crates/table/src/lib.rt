// Which stretches of one string vanish. The string is lent as the numbers that hold its simple types; for each j the table has, as a row of
// bits, the places from which the stretch up to j vanishes. It grows with the string, by one simple type at a time.
#![tactic(auto)]

ghost use Rattle.std.specs.Prelude.{◌+◌, ◌<◌, ◌≡◌, ◌↔◌, true};
ghost use Rattle.pregroup.specs.Held.{InRows};
ghost use Rattle.bits.specs.Rows.{HasRow, RowSays};
ghost use Rattle.table.specs.Table.{string_of, ContractsAt, Right, StringThere, Bounded, FitsBefore, Extended};

use bits::rows;
use bits::rows::Row;
use pregroup::LinkKind;

// Whether the simple type at i could contract with the one at k.
fn fits(order: &[u64], string: &[u16], i: usize, k: usize) -> bool
    requires i_lt_k { i < k }
    requires string_there { StringThere string.now (k + 1) }
    ensures { (result ≡ true) ↔ ContractsAt (InRows order.now) string.now k i }
{
    let kind = pregroup::may_contract(order, string[i], string[k]);
    !matches!(kind, LinkKind::Not)
}

// The places before k that the simple type at k may close: they could contract, and what stands between them vanishes.
fn closed_by(order: &[u64], string: &[u16], table: &[u64], k: usize) -> Row
    requires string_there { StringThere string.now (k + 1) }
    requires has_row { HasRow table.now k × Bounded table.now k }
    ensures { RowSays result.words 0
        (FitsBefore (ContractsAt (InRows order.now) string.now k) table.now k) }
{
    rows::members_where(table, k, 1, 1, |i| fits(order, string, i, k))
}

// Makes row 0: of the empty string the empty stretch vanishes.
pub fn begin(table: &mut [u64])
    requires { HasRow table.old 0 }
    ensures { RowSays table.new 0 (λ i. i ≡ 0) }
{
    rows::store(table, 0, rows::put(rows::empty(), 0));
}

// Makes the row behind k, where the rows up to k are right for the string of the first k simple types: the empty stretch, and what stands before each
// place that the simple type at k may close. What is returned are these places.
pub fn extend(order: &[u64], string: &[u16], k: usize, table: &mut [u64]) -> Row
    requires string_there { StringThere string.now (k + 1) }
    requires has_row { HasRow table.old (k + 1) }
    requires right { Right (InRows order.now) (string_of string.now k) table.old k }
    ensures { Extended (InRows order.now) (string_of string.now (k + 1)) table.new result.words k }
{
    let closed = closed_by(order, string, table, k);
    let row = rows::unite_all(rows::put(rows::empty(), k + 1), table, closed);
    rows::store(table, k + 1, row);
    closed
}
