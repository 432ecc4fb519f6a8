// All records of a book, one behind another, read where they stand. What is kept of them goes into lent arrays.
ghost use Rattle.std.specs.Prelude.{◌+◌, ◌<◌};
ghost use Rattle.book.specs.Kept.{store, StoreRoomy, NoPairs, Sound, TakenSays, ScanSays};

use crate::record_reader::fault_at;
use crate::{Counts, Progress};
use bytewise::widths::two_bytes;
use figures::limits::MAX_BOOK;
use figures::refusals::{Cause, Refusal};
use format::layout::{HEAD, body_at};
use format::names::keep_name;
use rules::layout::{BASIC_TYPE, ENTRY, ORDER_PAIR, SLASHED_ENTRY, TARGET};

// Takes the next record in: its offset, its pair or its target is kept, or it is refused.
fn take_record(
    book: &[u8],
    names: &mut [u16],
    entries: &mut [u16],
    direct: &mut [u64],
    targets: &mut [u8],
    p: Progress,
) -> Result<Progress, Cause>
    requires { Sound book.now (store names.old entries.old direct.old targets.old) p }
    ensures { TakenSays book.now (store names.old entries.old direct.old targets.old) p
        (store names.new entries.new direct.new targets.new) result }
{
    fault_at(book, p.at, names, p.types, p.entries, p.targets)?;
    let body = body_at(book, p.at);
    let at = p.at + HEAD + body.len();
    let kind = two_bytes(book, p.at + 2);
    match kind {
        BASIC_TYPE => {
            keep_name(names, p.types, p.at, body);
            Ok(Progress {
                at,
                types: p.types + 1,
                ..p
            })
        }
        ORDER_PAIR => {
            let lower = usize::from(body[0]);
            direct[lower] = bits::with(direct[lower], body[1]);
            Ok(Progress { at, ..p })
        }
        ENTRY | SLASHED_ENTRY => {
            entries[p.entries] = p.at as u16;
            Ok(Progress {
                at,
                entries: p.entries + 1,
                ..p
            })
        }
        TARGET => {
            targets[p.targets] = body[0];
            Ok(Progress {
                at,
                targets: p.targets + 1,
                ..p
            })
        }
        // A record of any other kind has a fault.
        _ => unreachable!(),
    }
}

// Reads all records of a book. Of an accepted book the arrays hold where its basic types and entries stand, its pairs, and its targets.
pub fn scan_book(
    book: &[u8],
    names: &mut [u16],
    entries: &mut [u16],
    direct: &mut [u64],
    targets: &mut [u8],
) -> Result<Counts, Refusal>
    requires { StoreRoomy (store names.old entries.old direct.old targets.old) × NoPairs direct.old }
    ensures { ScanSays book.now (store names.new entries.new direct.new targets.new) result }
{
    if MAX_BOOK < book.len() {
        return Err(Cause::BookTooLong.with(0));
    }
    let mut p = Progress {
        at: 0,
        types: 0,
        entries: 0,
        targets: 0,
    };
    // Each record tells where the next one starts, so there is no range to go over.
    while p.at < book.len() {
        match take_record(book, names, entries, direct, targets, p) {
            Ok(next) => p = next,
            Err(cause) => return Err(cause.with(p.at)),
        }
    }
    if p.targets == 0 {
        return Err(Cause::NoTarget.with(book.len()));
    }
    Ok(Counts {
        types: p.types,
        entries: p.entries,
        targets: p.targets,
    })
}
