// An entry of a book, whatever its kind: its word, its type, and how many simple types that has. Nothing above this file knows the kinds of
// entries.
ghost use Rattle.std.specs.Prelude.{◌≡◌, true, false, List, length, ◌*◌, ◌%◌, ◌≤◌, pos, ◌-ℤ◌};
ghost use Rattle.figures.specs.Limits.{max_entry_simples};
ghost use Rattle.pregroup.specs.Types.{◌⁽◌⁾};
ghost use Rattle.pregroup.specs.Held.{bias, held};
ghost use Rattle.format.specs.Records.{Bytes, every, body_at, next_at, bodies_at};
ghost use Rattle.format.specs.Names.{Named};
ghost use Rattle.notation.specs.Brackets.{too_deep};
ghost use Rattle.notation.specs.Trees.{text_type};
ghost use Rattle.rules.specs.Layouts.{exponent_of, simples_of, is_worded, word_of};
ghost use Rattle.rules.specs.Rules.{exponents, exponent_listed};
ghost use Rattle.book.specs.Kept.{entry_from, Formed, HeldType};

use crate::EntryType;
use bytewise::widths::two_bytes;
use figures::limits::{MAX_ENTRY_SIMPLES, MAX_TEXT_SIMPLES};
use format::layout::body_at;
use notation::brackets::count_simples;
use pregroup::{EXPONENT_BIAS, hold};
use rules::layout::{SLASHED_ENTRY, type_part, word_part};
use slash::read_text;

// An exponent of the book, a byte in two's complement, as it is held: raised, so that it is never negative.
fn raise(exponent: u8) -> u8
    requires { exponent_listed (exponent_of exponent) ≡ true }
    ensures { pos result -ℤ pos bias ≡ exponent_of exponent }
{
    exponent.wrapping_add(EXPONENT_BIAS)
}

// A simple type of the book as it is held: a type number and an exponent, a byte each.
fn hold_simple(base: u8, exponent: u8) -> u16
    requires { exponent_listed (exponent_of exponent) ≡ true }
    ensures { held result ≡ base ⁽ exponent_of exponent ⁾ }
{
    hold(base, raise(exponent))
}

// The type that stands as pairs of a type number and an exponent.
fn pairs_type(part: &[u8]) -> EntryType
    requires { (length part.now % 2 ≡ 0) × (length part.now ≤ 2 * max_entry_simples)
        × (every exponent_listed (exponents (simples_of part.now)) ≡ true) }
    ensures { HeldType result (simples_of part.now) }
{
    let mut simples = [0u16; MAX_ENTRY_SIMPLES];
    let count = part.len() / 2;
    for i in 0..count {
        simples[i] = hold_simple(part[2 * i], part[2 * i + 1]);
    }
    EntryType { count, simples }
}

// The type that stands as a text; the empty type, where it is no type.
fn text_type(text: &[u8], book: &[u8], names: &[u16], types: usize) -> EntryType
    requires { Named book.now names.now types × (too_deep text.now ≡ false)
        × (length (text_type (bodies_at book.now names.now types) text.now) ≤ max_entry_simples) }
    ensures { HeldType result (text_type (bodies_at book.now names.now types) text.now) }
{
    let mut places = [0u16; MAX_TEXT_SIMPLES];
    let count = read_text(text, book, names, types, &mut places).unwrap_or(0);
    let mut simples = [0u16; MAX_ENTRY_SIMPLES];
    simples[..count].copy_from_slice(&places[..count]);
    EntryType { count, simples }
}

// The type of the entry whose record stands at an offset.
pub fn entry_type(book: &[u8], names: &[u16], types: usize, at: usize) -> EntryType
    requires { Named book.now names.now types × (next_at book.now at ≤ length book.now)
        × Formed book.now (bodies_at book.now names.now types) at }
    ensures { HeldType result (entry_from book.now (bodies_at book.now names.now types) at).type }
{
    let part = type_part(body_at(book, at));
    if two_bytes(book, at + 2) == SLASHED_ENTRY {
        return text_type(part, book, names, types);
    }
    pairs_type(part)
}

// How many simple types it has.
pub fn entry_length(book: &[u8], at: usize) -> usize
    requires { (next_at book.now at ≤ length book.now) × (is_worded (body_at book.now at) ≡ true) }
    ensures { (names : List Bytes) → Formed book.now names at → result ≡ length (entry_from book.now names at).type }
{
    let part = type_part(body_at(book, at));
    if two_bytes(book, at + 2) == SLASHED_ENTRY {
        return count_simples(part);
    }
    part.len() / 2
}

// Its word.
pub fn entry_word(book: &[u8], at: usize) -> &[u8]
    requires { (next_at book.now at ≤ length book.now) × (is_worded (body_at book.now at) ≡ true) }
    ensures { result.now ≡ word_of (body_at book.now at) }
{
    word_part(body_at(book, at))
}
