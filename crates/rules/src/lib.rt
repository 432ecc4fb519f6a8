// The rules for one record: the cause that it is refused for, which is that of the first rule it breaks. The functions go by the record's kind,
// each over the record's body as a part of the book.
#![tactic(auto)]

ghost use Rattle.std.specs.Prelude.{◌≡◌, true, cond, List, ℕ, ◌+◌, ◌%◌, ltb, ◌≤◌, ◌<◌, length};
ghost use Rattle.std.specs.List.{list_all};
ghost use Rattle.format.specs.Records.{Bytes, every, bodies_at};
ghost use Rattle.format.specs.Names.{Named};
ghost use Rattle.figures.specs.Refusals.{brackets_too_deep, not_a_type, number_of, fault_number};
ghost use Rattle.notation.specs.Brackets.{too_deep};
ghost use Rattle.rules.specs.Layouts.{basic_type, order_pair, entry, target, slashed_entry, type_part, is_worded, simples_of};
ghost use Rattle.rules.specs.Rules.{bases, declared_among, exponents, exponent_listed, kind_rules, record_rules, first_broken};

use crate::layout::{
    BASIC_TYPE, ENTRY, ORDER_PAIR, SLASHED_ENTRY, TARGET, is_entry, is_exponent, is_worded,
    type_part,
};
use bytewise::widths::two_bytes;
use figures::limits::{MAX_ENTRIES, MAX_ENTRY_SIMPLES, MAX_TARGETS, MAX_TEXT_SIMPLES, MAX_TYPES};
use figures::refusals::Cause;
use format::layout::{HEAD, body_at};
use format::names::{is_name, search_name};
use notation::brackets::is_too_deep;
use slash::read_text;

pub mod layout;

// Whether all type numbers of a type are below the number of basic types.
fn all_declared(part: &[u8], types: usize) -> bool
    requires { length part.now % 2 ≡ 0 }
    ensures { result ≡ every (declared_among types) (bases (simples_of part.now)) }
{
    // A chain over `chunks_exact(2)` was tried, and its proof did not close.
    for k in 0..part.len() / 2 {
        if types <= usize::from(part[2 * k]) {
            return false;
        }
    }
    true
}

// Whether all exponents of a type are from -8 to 8.
fn all_exponents(part: &[u8]) -> bool
    requires { length part.now % 2 ≡ 0 }
    ensures { result ≡ every exponent_listed (exponents (simples_of part.now)) }
{
    // A chain was tried here too. One function for both loops, over the test, would need a law for each test.
    for k in 0..part.len() / 2 {
        if !is_exponent(part[2 * k + 1]) {
            return false;
        }
    }
    true
}

// Whether the basic types of the places are all below the number of basic types.
fn held_declared(places: &[u16], types: usize) -> bool
    ensures { result ≡ list_all (λ place. ltb (place % 256) types) places.now }
{
    places.iter().all(|place| usize::from(*place) % 256 < types)
}

// The rules for a basic type: its layout, a name used before, one too many.
fn name_fault(book: &[u8], names: &[u16], types: usize, body: &[u8]) -> Result<(), Cause>
    requires { Named book.now names.now types }
    ensures { (entries targets : ℕ) → fault_number result ≡ first_broken
        (kind_rules basic_type body.now (bodies_at book.now names.now types) entries targets) }
{
    if !is_name(body) {
        return Err(Cause::BadLayout);
    }
    if search_name(book, names, types, body) < types {
        return Err(Cause::NameUsed);
    }
    if MAX_TYPES <= types {
        return Err(Cause::TooManyRecords);
    }
    Ok(())
}

// The rules for an order pair: its layout, and two declared type numbers.
fn pair_fault(body: &[u8], types: usize) -> Result<(), Cause>
    ensures { (names : List Bytes) (entries targets : ℕ) → length names ≡ types → fault_number result ≡ first_broken
        (kind_rules order_pair body.now names entries targets) }
{
    if body.len() != 2 {
        return Err(Cause::BadLayout);
    }
    if types <= usize::from(body[0]) {
        return Err(Cause::UndeclaredType);
    }
    if types <= usize::from(body[1]) {
        return Err(Cause::UndeclaredType);
    }
    Ok(())
}

// The rules for an entry: its layout, declared type numbers, exponents from -8 to 8, one too many.
fn entry_fault(body: &[u8], types: usize, entries: usize) -> Result<(), Cause>
    ensures { (names : List Bytes) (targets : ℕ) → length names ≡ types → fault_number result ≡ first_broken
        (kind_rules entry body.now names entries targets) }
{
    if !is_entry(body) {
        return Err(Cause::BadLayout);
    }
    let part = type_part(body);
    if !all_declared(part, types) {
        return Err(Cause::UndeclaredType);
    }
    if !all_exponents(part) {
        return Err(Cause::ExponentOutside);
    }
    if MAX_ENTRIES <= entries {
        return Err(Cause::TooManyRecords);
    }
    Ok(())
}

// The cause for a text that could not be read: its brackets are too deep, or it is no type.
fn unread_fault(text: &[u8]) -> Cause
    ensures { number_of result ≡ cond (too_deep text.now) brackets_too_deep not_a_type }
{
    if is_too_deep(text) {
        return Cause::BracketsTooDeep;
    }
    Cause::NotAType
}

// The rules for the text of a slashed entry: brackets that are too deep, a type, declared names, its length, one entry too many.
fn text_fault(
    book: &[u8],
    names: &[u16],
    types: usize,
    text: &[u8],
    entries: usize,
) -> Result<(), Cause>
    requires { Named book.now names.now types }
    ensures { (body : Bytes) (targets : ℕ) → is_worded body ≡ true → type_part body ≡ text.now → fault_number result ≡ first_broken
        (kind_rules slashed_entry body (bodies_at book.now names.now types) entries targets) }
{
    let mut places = [0u16; MAX_TEXT_SIMPLES];
    let Some(count) = read_text(text, book, names, types, &mut places) else {
        return Err(unread_fault(text));
    };
    if !held_declared(&places[..count], types) {
        return Err(Cause::UndeclaredType);
    }
    if MAX_ENTRY_SIMPLES < count {
        return Err(Cause::TypeTooLong);
    }
    if MAX_ENTRIES <= entries {
        return Err(Cause::TooManyRecords);
    }
    Ok(())
}

// The rules for a slashed entry: its layout, then those for its text.
fn slashed_fault(
    book: &[u8],
    names: &[u16],
    types: usize,
    body: &[u8],
    entries: usize,
) -> Result<(), Cause>
    requires { Named book.now names.now types }
    ensures { (targets : ℕ) → fault_number result ≡ first_broken
        (kind_rules slashed_entry body.now (bodies_at book.now names.now types) entries targets) }
{
    if !is_worded(body) {
        return Err(Cause::BadLayout);
    }
    text_fault(book, names, types, type_part(body), entries)
}

// The rules for a target: its layout, a declared type number, fewer than eight targets before.
fn target_fault(body: &[u8], types: usize, targets: usize) -> Result<(), Cause>
    ensures { (names : List Bytes) (entries : ℕ) → length names ≡ types → fault_number result ≡ first_broken
        (kind_rules target body.now names entries targets) }
{
    if body.len() != 1 {
        return Err(Cause::BadLayout);
    }
    if types <= usize::from(body[0]) {
        return Err(Cause::UndeclaredType);
    }
    if MAX_TARGETS <= targets {
        return Err(Cause::TooManyTargets);
    }
    Ok(())
}

// The rules for the record at an offset of the book.
pub fn record_fault(
    book: &[u8],
    at: usize,
    names: &[u16],
    types: usize,
    entries: usize,
    targets: usize,
) -> Result<(), Cause>
    requires { (at ≤ length book.now) × Named book.now names.now types }
    ensures { fault_number result ≡ first_broken (record_rules book.now at (bodies_at book.now names.now types) entries
        targets) }
{
    if book.len() - at < HEAD {
        return Err(Cause::CutShort);
    }
    let left = book.len() - at - HEAD;
    if left < two_bytes(book, at) {
        return Err(Cause::CutShort);
    }
    let body = body_at(book, at);
    let kind = two_bytes(book, at + 2);
    match kind {
        BASIC_TYPE => name_fault(book, names, types, body),
        ORDER_PAIR => pair_fault(body, types),
        ENTRY => entry_fault(body, types, entries),
        TARGET => target_fault(body, types, targets),
        SLASHED_ENTRY => slashed_fault(book, names, types, body, entries),
        _ => Err(Cause::KindNotListed),
    }
}
