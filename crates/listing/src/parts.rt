// What a listing shows of a book, by its number: the type of an entry, the basic type of a target. A number that the book does not have counts too.
ghost use Rattle.std.specs.Prelude.{◌≡◌, map};
ghost use Rattle.linking.specs.Reading.{target_at};
ghost use Rattle.format.specs.Records.{bodies_at};
ghost use Rattle.format.specs.Names.{Named};
ghost use Rattle.book.specs.Kept.{entry_from, HeldType};
ghost use Rattle.lookup.specs.Entries.{Lexicon};
ghost use Rattle.listing.specs.Listing.{type_of};

use book::EntryType;
use book::entries::entry_type;
use figures::limits::MAX_ENTRY_SIMPLES;

// The type of an entry. A number that the book does not have stands for the empty type.
pub(crate) fn type_of(
    book: &[u8],
    names: &[u16],
    types: usize,
    entries: &[u16],
    entry: usize,
) -> EntryType
    requires { Named book.now names.now types × Lexicon book.now (bodies_at book.now names.now types) entries.now }
    ensures { HeldType result (type_of (map (entry_from book.now (bodies_at book.now names.now types)) entries.now) entry) }
{
    match entries.get(entry) {
        Some(at) => entry_type(book, names, types, usize::from(*at)),
        None => EntryType {
            count: 0,
            simples: [0u16; MAX_ENTRY_SIMPLES],
        },
    }
}

// The basic type of a target. A number that the book does not have stands for the first basic type.
pub(crate) fn target_at(targets: &[u8], number: usize) -> u8
    ensures { result ≡ target_at targets.now number }
{
    targets.get(number).copied().unwrap_or(0)
}
