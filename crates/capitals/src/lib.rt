// Words compared where they stand, capitals as small letters. Most words differ in more than case, and eight bytes as one number tell so;
// what may differ in case alone is compared in small letters, eight bytes at a time too.
#![tactic(auto)]

ghost use Rattle.std.specs.Prelude.{◌≡◌, true, ◌↔◌, ◌+◌, ◌≤◌, length};
ghost use Rattle.capitals.specs.Capitals.{small, same_word};
ghost use Rattle.capitals.specs.Letters.{SameLetters, small_number};

use bytewise::compare::{eight_bytes, first_other};

// The bit by which a capital and its small letter differ, and the same in each of eight bytes.
const CASE_BIT: u8 = 0x20;

const CASE_BITS: usize = 0x2020_2020_2020_2020;

// In each of eight bytes: the bits below the top one; what raises A to the top bit; what raises to it the byte that follows Z; the top bit.
const SEVEN_BITS: usize = 0x7f7f_7f7f_7f7f_7f7f;

const TO_A: usize = 0x3f3f_3f3f_3f3f_3f3f;

const PAST_Z: usize = 0x2525_2525_2525_2525;

const TOP_BITS: usize = 0x8080_8080_8080_8080;

// Whether a and b are the same word.
#[tactic(auto, using(crate::proofs::LetterLaws::other_length))]
pub fn same_word(a: &[u8], b: &[u8]) -> bool
    ensures { result ≡ same_word a.now b.now }
{
    if a.len() != b.len() {
        false
    } else if a.len() < 8 {
        same_letters(a, b)
    } else {
        same_long(a, b)
    }
}

// The same for two words of one length, at least eight. The same letters are equal but for bits of case.
fn same_long(a: &[u8], b: &[u8]) -> bool
    requires { (length a.now ≡ length b.now) × (8 ≤ length a.now) }
    ensures { result ≡ same_word a.now b.now }
{
    let at = first_other(a, b);
    let x = eight_bytes(a, at);
    let y = eight_bytes(b, at);
    x == y || (x | CASE_BITS == y | CASE_BITS && same_eights(a, b, at))
}

// Whether the letters from a place on are the same, eight at a time, and at the end the last eight. One search for this loop and `first_other`'s,
// with a look at its place behind it, takes 1.2 times the instructions.
fn same_eights(a: &[u8], b: &[u8], from: usize) -> bool
    requires { (length a.now ≡ length b.now) × (from + 8 ≤ length a.now) }
    ensures { (result ≡ true) ↔ SameLetters a.now b.now from (length a.now) }
{
    for k in 0..(a.len() - from - 1) / 8 {
        let i = from + 8 * k;
        if small_eight(eight_bytes(a, i)) != small_eight(eight_bytes(b, i)) {
            return false;
        }
    }
    let last = a.len() - 8;
    small_eight(eight_bytes(a, last)) == small_eight(eight_bytes(b, last))
}

// Eight bytes with capitals made small. Each byte's low seven bits are raised twice: the first sum has the top bit from A on, the second past Z.
// A capital has the one and not the other, and no top bit of its own; a quarter of that bit is 32.
fn small_eight(bytes: usize) -> usize
    ensures { result ≡ small_number 8 bytes }
{
    let seven = bytes & SEVEN_BITS;
    let like = ((seven + TO_A) ^ (seven + PAST_Z)) & TOP_BITS;
    bytes + (like ^ (like & bytes)) / 4
}

// Whether two words of one length are the same, letter by letter. The library's `eq_ignore_ascii_case` takes 18 instructions for two equal letters, `all`
// over a `zip` 9, and this 7.
#[tactic(auto, using(crate::proofs::LetterLaws::other_letter, crate::proofs::LetterLaws::all_letters))]
fn same_letters(a: &[u8], b: &[u8]) -> bool
    requires { length a.now ≡ length b.now }
    ensures { result ≡ same_word a.now b.now }
{
    for i in 0..a.len() {
        if !same_letter(a[i], b[i]) {
            return false;
        }
    }
    true
}

// Whether two bytes are the same letter, or the same sign.
#[tactic(auto, using(crate::proofs::LetterLaws::or_byte))]
fn same_letter(x: u8, y: u8) -> bool
    ensures { (result ≡ true) ↔ (small x ≡ small y) }
{
    x == y || (x | CASE_BIT == y | CASE_BIT && small_letter(x) == small_letter(y))
}

// A byte with a capital made small.
#[tactic(auto, unfolding(crate::specs::Capitals::small))]
pub fn small_letter(byte: u8) -> u8
    ensures { result ≡ small byte }
{
    byte.to_ascii_lowercase()
}
