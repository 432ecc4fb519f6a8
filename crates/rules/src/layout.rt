// The kinds of records and the layout of an entry's body: byte ranges for words and exponents, and the layouts built from them, as specs/Layouts
// has them.
ghost use Rattle.std.specs.Prelude.{◌≡◌, true, ◌<◌, length};
ghost use Rattle.std.specs.List.{list_all};
ghost use Rattle.format.specs.Records.{between};
ghost use Rattle.rules.specs.Layouts.{exponent_of, is_worded, is_entry, word_length, word_of, type_part};
ghost use Rattle.rules.specs.Rules.{exponent_listed};

use figures::limits::{MAX_ENTRY_SIMPLES, MAX_EXPONENT, MAX_WORD};

// The numbers of the listed kinds of records. The type of a slashed entry is a text. They are no enum: a head may hold any number, and the code goes by it.
pub const BASIC_TYPE: usize = 1;

pub const ORDER_PAIR: usize = 2;

pub const ENTRY: usize = 3;

pub const TARGET: usize = 4;

pub const SLASHED_ENTRY: usize = 5;

// The byte of the least exponent, in two's complement.
pub const LEAST_EXPONENT: u8 = 255 - (MAX_EXPONENT - 1);

fn is_word_byte(byte: u8) -> bool
    ensures { result ≡ between 33 126 byte }
{
    matches!(byte, 33..=126)
}

// Whether a byte holds an exponent from -8 to 8, in two's complement.
pub fn is_exponent(byte: u8) -> bool
    ensures { result ≡ exponent_listed (exponent_of byte) }
{
    matches!(byte, 0..=MAX_EXPONENT | LEAST_EXPONENT..=255)
}

fn all_word_bytes(bytes: &[u8]) -> bool
    ensures { result ≡ list_all (between 33 126) bytes.now }
{
    bytes.iter().all(|byte| is_word_byte(*byte))
}

// Whether a body has a word in front: the word's length, then the word.
#[tactic(auto, unfolding(crate::specs::Layouts::is_worded))]
pub fn is_worded(body: &[u8]) -> bool
    ensures { result ≡ is_worded body.now }
{
    let Some(first) = body.first() else {
        return false;
    };
    let length = usize::from(*first);
    1 <= length && length <= MAX_WORD && length < body.len() && all_word_bytes(word_part(body))
}

// Whether a body is that of an entry with simple types: behind its word stand pairs of a type number and an exponent.
#[tactic(auto, unfolding(crate::specs::Layouts::is_entry))]
pub fn is_entry(body: &[u8]) -> bool
    ensures { result ≡ is_entry body.now }
{
    if !is_worded(body) {
        return false;
    }
    let part = type_part(body);
    part.len() % 2 == 0 && part.len() <= 2 * MAX_ENTRY_SIMPLES
}

// The part of an entry's body that holds its type.
pub fn type_part(body: &[u8]) -> &[u8]
    requires { is_worded body.now ≡ true }
    ensures { result.now ≡ type_part body.now }
{
    let start = 1 + usize::from(body[0]);
    &body[start..]
}

// The word of an entry's body.
pub fn word_part(body: &[u8]) -> &[u8]
    requires { word_length body.now < length body.now }
    ensures { result.now ≡ word_of body.now }
{
    let end = 1 + usize::from(body[0]);
    &body[1..end]
}
