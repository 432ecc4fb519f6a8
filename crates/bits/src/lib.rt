// Sets of small numbers in one 64-bit word: bit q is 1 where q is a member. The layers above hold the order, and sets of basic types, so.
#![tactic(auto)]

pub mod rows;

ghost use Rattle.std.specs.Prelude.{◌+◌, ◌<◌, ◌≡◌, ◌↔◌, ◌⊎◌, true};
ghost use Rattle.bits.specs.Bits.{Has, Members, Lowest, Counted};

// Whether q is a member. No number from 64 on is.
pub fn has(word: u64, q: u8) -> bool
    ensures { (result ≡ true) ↔ Has word q }
{
    q < 64 && (word >> q) % 2 == 1
}

// The set with q put in.
pub fn with(word: u64, q: u8) -> u64
    requires { q < 64 }
    ensures { Members result (λ k. Has word k ⊎ (k ≡ q)) }
{
    word | 1 << q
}

// The members of either set.
pub fn union(a: u64, b: u64) -> u64
    ensures { Members result (λ k. Has a k ⊎ Has b k) }
{
    a | b
}

// The members of both sets.
pub fn both(a: u64, b: u64) -> u64
    ensures { Members result (λ k. Has a k × Has b k) }
{
    a & b
}

// The members of a that are not members of b.
pub fn minus(a: u64, b: u64) -> u64
    ensures { Members result (λ k. Has a k × (Has b k → ⊥)) }
{
    a & !b
}

// The members from q on, lowered by q.
pub fn above(word: u64, q: u8) -> u64
    requires { q < 64 }
    ensures { Members result (λ k. Has word (q + k)) }
{
    word >> q
}

// The lowest member of a set that has one.
pub fn lowest(word: u64) -> u8
    requires { 0 < word }
    ensures { Lowest word result }
{
    word.trailing_zeros() as u8
}

// How many members the set has.
pub fn count(word: u64) -> u64
    ensures { Counted word result }
{
    u64::from(word.count_ones())
}
