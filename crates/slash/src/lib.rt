// Types written with slashes, read where they stand in a book. The parsers of types and units call each other: the unread text and the depth that is
// left fall. What they read they write to a list of places: the simple types of a type, as they are held.
#![tactic(auto)]

ghost use Rattle.std.specs.Prelude.{suc, ◌≤◌, ◌<◌, length, drop};
ghost use Rattle.figures.specs.Limits.{max_depth};
ghost use Rattle.format.specs.Records.{bodies_at};
ghost use Rattle.format.specs.Names.{Named};
ghost use Rattle.notation.specs.Grammar.{meaning};
ghost use Rattle.notation.specs.Trees.{name_at, unit_at, type_at};
ghost use Rattle.slash.specs.Parsing.{room, TextFits, SignAt, Says, TextRead};

use figures::limits::{MAX_DEPTH, MAX_NAME};
use format::names::{find_name, is_letter, name_end};
use notation::adjoint::{Side, turn};
use pregroup::{EXPONENT_BIAS, hold};

// A unit or a type at the front of a text: its end in the text, and the end of its simple types in the list.
#[derive(Clone, Copy)]
pub struct Found {
    pub behind: usize,
    pub end: usize,
}

// What stands between the two units of a type.
#[derive(Clone, Copy)]
enum Sign {
    Slash,
    Backslash,
}

// The slash or backslash at a place of a text.
fn sign_at(text: &[u8], at: usize) -> Option<Sign>
    ensures { SignAt text.now at result }
{
    match text.get(at)? {
        b'/' => Some(Sign::Slash),
        b'\\' => Some(Sign::Backslash),
        _ => None,
    }
}

// Reads a name: its simple type is plain. The number of a name that is not declared is how many are. It is inlined, as `read_unit` is, so that a name
// costs no call.
#[inline(always)]
fn read_name(
    text: &[u8],
    at: usize,
    book: &[u8],
    names: &[u16],
    types: usize,
    places: &mut [u16],
    from: usize,
) -> Option<Found>
    requires { TextFits book.now names.now types text.now at 0 0 from places.old × (at < length text.now) }
    ensures { Says (meaning (bodies_at book.now names.now types)) text.now
        (name_at (drop at text.now)) 0 0 from places.old places.new result }
{
    if !is_letter(text[at]) {
        return None;
    }
    let behind = name_end(text, at + 1);
    if MAX_NAME < behind - at {
        return None;
    }
    let number = find_name(book, names, types, &text[at..behind]);
    places[from] = hold(number as u8, EXPONENT_BIAS);
    Some(Found {
        behind,
        end: from + 1,
    })
}

// Reads a unit: a name, or a type in brackets.
#[cycle(read_type_read_unit)]
#[inline(always)]
fn read_unit(
    text: &[u8],
    at: usize,
    depth: usize,
    book: &[u8],
    names: &[u16],
    types: usize,
    places: &mut [u16],
    from: usize,
) -> Option<Found>
    requires { TextFits book.now names.now types text.now at depth depth from places.old }
    ensures { Says (meaning (bodies_at book.now names.now types)) text.now
        (unit_at depth (drop at text.now)) depth depth from places.old places.new result }
{
    if *text.get(at)? != b'(' {
        return read_name(text, at, book, names, types, places, from);
    }
    if depth == 0 {
        return None;
    }
    let inside = read_type(text, at + 1, depth - 1, book, names, types, places, from)?;
    if *text.get(inside.behind)? != b')' {
        return None;
    }
    Some(Found {
        behind: inside.behind + 1,
        end: inside.end,
    })
}

// Reads a type: a unit, or two units with a slash between. Of A/B the second unit is turned, of B\A the first.
#[cycle(read_type_read_unit)]
fn read_type(
    text: &[u8],
    at: usize,
    depth: usize,
    book: &[u8],
    names: &[u16],
    types: usize,
    places: &mut [u16],
    from: usize,
) -> Option<Found>
    requires { TextFits book.now names.now types text.now at depth (suc depth) from places.old }
    ensures { Says (meaning (bodies_at book.now names.now types)) text.now
        (type_at depth (drop at text.now)) (suc depth) (suc depth) from places.old places.new result }
{
    let first = read_unit(text, at, depth, book, names, types, places, from)?;
    match sign_at(text, first.behind) {
        None => Some(first),
        Some(Sign::Slash) => {
            let second = read_unit(
                text,
                first.behind + 1,
                depth,
                book,
                names,
                types,
                places,
                first.end,
            )?;
            turn(&mut places[first.end..second.end], Side::Left);
            Some(second)
        }
        Some(Sign::Backslash) => {
            turn(&mut places[from..first.end], Side::Right);
            read_unit(
                text,
                first.behind + 1,
                depth,
                book,
                names,
                types,
                places,
                first.end,
            )
        }
    }
}

// Reads a whole text. It gives the number of its simple types, which stand at the first places, or none where the brackets are too deep or the text
// is no type.
pub fn read_text(
    text: &[u8],
    book: &[u8],
    names: &[u16],
    types: usize,
    places: &mut [u16],
) -> Option<usize>
    requires { Named book.now names.now types × (room (suc max_depth) ≤ length places.old) }
    ensures { TextRead (bodies_at book.now names.now types) text.now places.new result }
{
    let all = read_type(text, 0, MAX_DEPTH, book, names, types, places, 0)?;
    if all.behind < text.len() {
        return None;
    }
    Some(all.end)
}
