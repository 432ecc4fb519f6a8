// Rows of nodes or places: sets of numbers below 576 in nine words of 64 bits. A row under construction is a `Row`; finished ones stand one behind
// another in a flat slice, row u from word 9 u on.
ghost use Rattle.std.specs.Prelude.{◌≡◌, ◌↔◌, ◌⊎◌, true, ℕ, ◌+◌, ◌-◌, ◌<◌, ◌≤◌, length};
ghost use Rattle.figures.specs.Limits.{row_bits, row_words};
ghost use Rattle.bits.specs.Rows.{InRow, HasRow, RowSays, NextMember, GivesMember, Stored};
ghost use Rattle.std.specs.Iterator.{at_most};
ghost use Rattle.bits.specs.Gathered.{Gathered, RowPart};
ghost use Rattle.bits.specs.Tested.{Tested};

use figures::limits::{ROW_BITS, ROW_WORDS};

// One row.
#[derive(Clone, Copy)]
pub struct Row {
    pub words: [u64; ROW_WORDS],
}

// The row without members.
pub fn empty() -> Row
    ensures { RowSays result.words 0 (λ k. ⊥) }
{
    Row {
        words: [0u64; ROW_WORDS],
    }
}

// Puts v into a row where it stands: a row that is handed on for each member is copied each time.
pub fn put_in(words: &mut [u64], v: usize)
    requires { (v < row_bits) × (length words.old ≡ row_words) }
    ensures { RowSays words.new 0 (λ k. InRow words.old 0 k ⊎ (k ≡ v)) }
{
    words[v / 64] = crate::with(words[v / 64], (v % 64) as u8);
}

// The row with v put in.
pub fn put(mut row: Row, v: usize) -> Row
    requires { v < row_bits }
    ensures { RowSays result.words 0 (λ k. InRow row.words 0 k ⊎ (k ≡ v)) }
{
    put_in(&mut row.words, v);
    row
}

// The members of the row and those of row u.
pub fn unite(mut row: Row, rows: &[u64], u: usize) -> Row
    requires { HasRow rows.now u }
    ensures { RowSays result.words 0 (λ k. InRow row.words 0 k ⊎ InRow rows.now u k) }
{
    let at = ROW_WORDS * u;
    for (k, word) in row.words.iter_mut().enumerate() {
        *word = crate::union(*word, rows[at + k]);
    }
    row
}

// The members of the row and those of each row whose number is in the set.
pub fn unite_all(mut row: Row, rows: &[u64], set: Row) -> Row
    requires { (u : ℕ) → InRow set.words 0 u → HasRow rows.now u }
    ensures { RowSays result.words 0 (Gathered (InRow row.words 0) (RowPart set.words rows.now)) }
{
    for u in members(&set.words, 0, 0) {
        row = unite(row, rows, u);
    }
    row
}

// Puts the row in the place of row u.
pub fn store(rows: &mut [u64], u: usize, row: Row)
    requires { HasRow rows.old u }
    ensures { Stored rows.old rows.new row.words u }
{
    let at = ROW_WORDS * u;
    rows[at..at + ROW_WORDS].copy_from_slice(&row.words);
}

// Whether v is a member of row u.
pub fn member(rows: &[u64], u: usize, v: usize) -> bool
    requires { HasRow rows.now u }
    ensures { (result ≡ true) ↔ InRow rows.now u v }
{
    v < ROW_BITS && crate::has(rows[ROW_WORDS * u + v / 64], (v % 64) as u8)
}

// The smallest member of row u that is not below `from`, or `ROW_BITS` where there is none: the public contract gives
// that number.
pub fn next_member(rows: &[u64], u: usize, from: usize) -> usize
    requires has_row { HasRow rows.now u }
    requires from_le_row_bits { from ≤ row_bits }
    ensures { NextMember rows.now u from result }
{
    // A `for` over the words would be no plainer: the first word is cut off below `from`, so its test would stand twice.
    let mut at = from;
    while at < ROW_BITS {
        let word = crate::above(rows[ROW_WORDS * u + at / 64], (at % 64) as u8);
        if word != 0 {
            return at + crate::lowest(word) as usize;
        }
        at = (at / 64 + 1) * 64;
    }
    ROW_BITS
}

// The members of row u of `rows` that are not below `from`, from the smallest up.
#[derive(Drop)]
pub struct RowMembers<'a> {
    pub rows: &'a [u64],
    pub u: usize,
    pub from: usize,
    ghost has_row: { HasRow rows.now u },
    ghost from_le_row_bits: { from ≤ row_bits },
}

impl<'a> Iterator for RowMembers<'a> {
    type Item = usize;

    ghost next_gives = { λ s r t. (t.rows.now ≡ s.rows.now) × (t.u ≡ s.u) × GivesMember s.rows.now s.u s.from r t.from };

    ghost remaining = { λ s. at_most (row_bits - s.from) };

    fn next(&mut self) -> Option<usize> {
        let v = next_member(self.rows, self.u, self.from);
        if v == ROW_BITS {
            return None;
        }
        self.from = v + 1;
        Some(v)
    }
}

// Walks the members of row u that are not below `from`.
pub fn members(rows: &[u64], u: usize, from: usize) -> RowMembers
    requires has_row { HasRow rows.now u }
    requires from_le_row_bits { from ≤ row_bits }
    ensures { (result.rows.now ≡ rows.now) × (result.u ≡ u) × (result.from ≡ from) }
{
    RowMembers { rows, u, from }
}

// The members of row u from `from` on, each lowered by `down`, of which the test says yes.
pub fn members_where<F: Fn(usize) -> bool>(
    rows: &[u64],
    u: usize,
    from: usize,
    down: usize,
    test: F,
) -> Row
    requires has_row { HasRow rows.now u }
    requires from_in_row { (down ≤ from) × (from ≤ row_bits) }
    requires may_ask { (v : ℕ) → from ≤ v + down → InRow rows.now u (v + down) → F.pre test v }
    ensures { Tested rows.now u from down (F.post test) result.words }
{
    let mut words = [0u64; ROW_WORDS];
    for m in members(rows, u, from) {
        if test(m - down) {
            put_in(&mut words, m - down);
        }
    }
    Row { words }
}
