// The rows of a listing, put into a lent buffer one behind another. specs/Rows says which fields a row has.
#![tactic(auto)]

mod text;

ghost use Rattle.std.specs.Prelude.{◌<◌, ◌≡◌, [], map, pos, ◌-ℤ◌, length, get_or};
ghost use Rattle.pregroup.specs.Held.{bias, held};
ghost use Rattle.format.specs.Records.{Whole, bodies_at};
ghost use Rattle.line.specs.LineWords.{words_of};
ghost use Rattle.printing.specs.Rows.{first_row, word_row, type_row, refusal_row, word_rows, type_rows};
ghost use Rattle.line.specs.Split.{SplitInto};
ghost use Rattle.printing.specs.Kept.{kept_rows, Puttable};
ghost use Rattle.writing.specs.Placed.{Countable, Placed};

use answer::parts::{entries_of, partners_of, target_of};
use bytewise::widths::value_at;
use format::layout::body_at;
use text::put_exponent;
use writing::Text;

const SPACE: u8 = b' ';

const ROW_END: u8 = b'\n';

// The name of a basic type.
fn name_of<'a>(book: &'a [u8], names: &[u16], base: usize) -> &'a [u8]
    requires { Whole book.now names.now (length names.now) }
    ensures { result.now ≡ get_or (bodies_at book.now names.now (length names.now)) base [] }
{
    match names.get(base) {
        Some(at) => body_at(book, usize::from(*at)),
        None => b"",
    }
}

// The row of a refusal.
pub fn put_refusal_row(number: usize, value: usize, text: &mut [u8], at: usize) -> usize
    requires { Countable at (refusal_row number value) }
    ensures { Placed text.old at (refusal_row number value) text.new result }
{
    let mut row = Text {
        bytes: text,
        place: at,
    };
    row.put_text(b"no", SPACE);
    row.put_number(number, SPACE);
    row.put_number(value, ROW_END);
    row.place
}

// The first row of an answer.
fn put_first_row(text: &mut Text, words: usize, simples: usize, target: usize)
    requires { Countable text.old.place (first_row words simples target) }
    ensures lent { text.new.bytes.ghost_name ≡ text.old.bytes.ghost_name }
    ensures placed { Placed text.old.bytes.now text.old.place (first_row words simples target) text.new.bytes.now text.new.place }
{
    text.put_text(b"yes", SPACE);
    text.put_number(words, SPACE);
    text.put_number(simples, SPACE);
    text.put_number(target, ROW_END);
}

// A word's row.
fn put_word_row(text: &mut Text, number: usize, word: &[u8], entry: usize)
    requires { Countable text.old.place (word_row number word.now entry) }
    ensures lent { text.new.bytes.ghost_name ≡ text.old.bytes.ghost_name }
    ensures placed { Placed text.old.bytes.now text.old.place (word_row number word.now entry) text.new.bytes.now text.new.place }
{
    text.put_number(number, SPACE);
    text.put_text(word, SPACE);
    text.put_number(entry, ROW_END);
}

// A simple type's row.
fn put_type_row(
    text: &mut Text,
    position: usize,
    name: &[u8],
    raised: usize,
    partner: usize,
    letter: u8,
)
    requires { Countable text.old.place (type_row position name.now (pos raised -ℤ pos bias) partner letter) }
    ensures lent { text.new.bytes.ghost_name ≡ text.old.bytes.ghost_name }
    ensures placed { Placed text.old.bytes.now text.old.place (type_row position name.now (pos raised -ℤ pos bias) partner letter) text.new.bytes.now text.new.place }
{
    text.put_number(position, SPACE);
    text.put_text(name, SPACE);
    put_exponent(text, raised, SPACE);
    text.put_number(partner, SPACE);
    text.put_text(&[letter], ROW_END);
}

// The rows of a line's words, which are split off.
fn put_word_rows(text: &mut Text, line: &[u8], starts: &[usize], ends: &[usize], entries: &[u16])
    requires split_into { SplitInto line.now starts.now ends.now }
    requires countable { Countable text.old.place (word_rows entries.now 0 (words_of line.now)) }
    ensures lent { text.new.bytes.ghost_name ≡ text.old.bytes.ghost_name }
    ensures placed { Placed text.old.bytes.now text.old.place (word_rows entries.now 0 (words_of line.now)) text.new.bytes.now text.new.place }
{
    for (k, (start, end)) in starts.iter().zip(ends).enumerate() {
        put_word_row(text, k + 1, &line[*start..*end], value_at(entries, k));
    }
}

// The rows of all simple types of a string, with their letters behind that of position 0.
fn put_type_rows(
    text: &mut Text,
    book: &[u8],
    names: &[u16],
    string: &[u16],
    letters: &[u8],
    partners: &[u16],
)
    requires whole { Whole book.now names.now (length names.now) × (length string.now < length letters.now) }
    requires countable { Countable text.old.place (type_rows (bodies_at book.now names.now (length names.now)) letters.now partners.now 0 (map held string.now)) }
    ensures lent { text.new.bytes.ghost_name ≡ text.old.bytes.ghost_name }
    ensures placed { Placed text.old.bytes.now text.old.place (type_rows (bodies_at book.now names.now (length names.now)) letters.now partners.now 0 (map held string.now)) text.new.bytes.now text.new.place }
{
    for (k, simple) in string.iter().enumerate() {
        let [base, raised] = simple.to_le_bytes();
        let name = name_of(book, names, usize::from(base));
        put_type_row(
            text,
            k + 1,
            name,
            usize::from(raised),
            value_at(partners, k),
            letters[k + 1],
        );
    }
}

// All rows of a reading by an answer's values, from the start of the buffer on.
pub fn put_reading(
    book: &[u8],
    names: &[u16],
    types: usize,
    line: &[u8],
    starts: &[usize],
    ends: &[usize],
    values: &[u16],
    string: &[u16],
    letters: &[u8],
    text: &mut [u8],
) -> usize
    requires { Puttable book.now names.now types line.now starts.now ends.now values.now string.now letters.now }
    ensures { Placed text.old 0
        (kept_rows book.now names.now types line.now values.now string.now letters.now)
        text.new result }
{
    let target = target_of(values);
    let entries = entries_of(values);
    let partners = partners_of(values);
    let mut rows = Text {
        bytes: text,
        place: 0,
    };
    put_first_row(&mut rows, entries.len(), partners.len(), target);
    put_word_rows(&mut rows, line, starts, ends, entries);
    put_type_rows(&mut rows, book, &names[..types], string, letters, partners);
    rows.place
}
