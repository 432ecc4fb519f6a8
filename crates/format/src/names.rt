// The names of basic types: their form, and their numbers. A name is looked for where its key was last seen, and else among all.
ghost use Rattle.std.specs.Prelude.{◌≡◌, ◌≤◌, ◌<◌, length};
ghost use Rattle.format.specs.Records.{between, bodies_at, Whole};
ghost use Rattle.figures.specs.Limits.{max_name, max_types};
ghost use Rattle.format.specs.Names.{is_name, NameEnds, number_of, name_keys, name_places, Named, Keeping};

use crate::layout::body_at;
use bytewise::compare::same;
use figures::limits::{MAX_NAME, MAX_TYPES};

// How many keys names have.
const NAME_KEYS: usize = 256;

// The places of the kept names. The first are one for each basic type, with the offset of its record. Behind them stands one for each key, with the
// number of the last name of that key.
pub const NAME_PLACES: usize = MAX_TYPES + NAME_KEYS;

pub fn is_letter(byte: u8) -> bool
    ensures { result ≡ between 97 122 byte }
{
    byte.is_ascii_lowercase()
}

// The end of the name that starts at `at`. Most bytes of a name are letters, so these take the shortest way.
pub fn name_end(text: &[u8], at: usize) -> usize
    requires { at ≤ length text.now }
    ensures { NameEnds text.now at result }
{
    for i in at..text.len() {
        let byte = text[i];
        if byte < b'a' {
            if !byte.is_ascii_digit() {
                return i;
            }
        } else if b'z' < byte {
            return i;
        }
    }
    text.len()
}

// Whether a body is a basic type's: 1 to 15 bytes, a letter first.
#[tactic(auto, using(crate::proofs::NameFronts::name_form))]
pub fn is_name(body: &[u8]) -> bool
    ensures { result ≡ is_name body.now }
{
    (1..=MAX_NAME).contains(&body.len()) && is_letter(body[0]) && name_end(body, 0) == body.len()
}

// The key of a name. That of one byte is the byte. Any other key mixes the name's length, its first byte and its last two, so that names that end in
// two digits have different keys.
fn name_key(name: &[u8]) -> usize
    requires { (1 ≤ length name.now) × (length name.now ≤ max_name) }
    ensures { result < name_keys }
{
    let first = usize::from(name[0]);
    let [.., before, last] = name else {
        return first;
    };
    (name.len() + 4 * first + 9 * usize::from(*before) + 16 * usize::from(*last)) % NAME_KEYS
}

// The number of a name among the basic types, or how many there are, which is what a text means by a name that is not declared (`number_of`). Their
// records start at the kept offsets and are tried one by one.
#[tactic(auto, using(crate::proofs::NameLaws::number_kept))]
pub fn search_name(book: &[u8], names: &[u16], types: usize, name: &[u8]) -> usize
    requires { Whole book.now names.now types }
    ensures { result ≡ number_of (bodies_at book.now names.now types) name.now }
{
    for i in 0..types {
        if same(name, body_at(book, usize::from(names[i]))) {
            return i;
        }
    }
    types
}

// The same, where the last name of the key is tried first. The search is lent `[..]` of two lists: a list that is handed on as it came is put in
// memory for every name, even where no search follows.
#[inline(always)]
#[tactic(auto, using(crate::proofs::NameLaws::number_kept))]
pub fn find_name(book: &[u8], names: &[u16], types: usize, name: &[u8]) -> usize
    requires { Named book.now names.now types × (1 ≤ length name.now) × (length name.now ≤ max_name) }
    ensures { result ≡ number_of (bodies_at book.now names.now types) name.now }
{
    let guess = usize::from(names[MAX_TYPES + name_key(name)]);
    if guess < types && same(name, body_at(book, usize::from(names[guess]))) {
        return guess;
    }
    search_name(&book[..], names, types, &name[..])
}

// Keeps the offset of a name's record as the next, and its number with its key.
pub fn keep_name(names: &mut [u16], types: usize, at: usize, name: &[u8])
    requires { (types < max_types) × (at < 65536) × (name_places ≤ length names.old) × (1 ≤ length name.now) × (length name.now ≤ max_name) }
    ensures { Keeping names.old types at names.new }
{
    let place = MAX_TYPES + name_key(name);
    names[types] = at as u16;
    names[place] = types as u16;
}
