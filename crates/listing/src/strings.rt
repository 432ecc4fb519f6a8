// The string of a reading: the types of its entries, joined.
ghost use Rattle.std.specs.Prelude.{◌+◌, ◌*◌, ◌≤◌, ◌≡◌, ◌++◌, map, length, take};
ghost use Rattle.figures.specs.Limits.{max_entry_simples};
ghost use Rattle.pregroup.specs.Types.{PregroupType};
ghost use Rattle.pregroup.specs.Held.{held};
ghost use Rattle.format.specs.Records.{bodies_at};
ghost use Rattle.format.specs.Names.{Named};
ghost use Rattle.book.specs.Kept.{entry_from, HeldType};
ghost use Rattle.lookup.specs.Entries.{Lexicon};
ghost use Rattle.listing.specs.Listing.{joined};

use crate::parts::type_of;
use book::EntryType;

// Writes the simple types of an entry from a place of the string on, and gives the place behind them.
fn append_type(t: EntryType, string: &mut [u16], from: usize) -> usize
    requires { ((X : PregroupType) × HeldType t X) × (from + max_entry_simples ≤ length string.old) }
    ensures { (result ≡ from + t.count)
        × ((X : PregroupType) → HeldType t X → map held (take result string.new) ≡ map held (take from string.old) ++ X) }
{
    let end = from + t.count;
    string[from..end].copy_from_slice(&t.simples[..t.count]);
    end
}

// Writes the simple types of the chosen entries, and gives their number.
pub(crate) fn join_types(
    book: &[u8],
    names: &[u16],
    types: usize,
    entries: &[u16],
    chosen: &[u16],
    string: &mut [u16],
) -> usize
    requires named { Named book.now names.now types × Lexicon book.now (bodies_at book.now names.now types) entries.now }
    requires max_entry_simples_in_bounds { length chosen.now * max_entry_simples ≤ length string.old }
    ensures { (result ≤ length string.new) × (map held (take result string.new)
        ≡ joined (map (entry_from book.now (bodies_at book.now names.now types)) entries.now) chosen.now) }
{
    let mut end = 0;
    for number in chosen {
        let t = type_of(book, names, types, entries, usize::from(*number));
        end = append_type(t, string, end);
    }
    end
}
