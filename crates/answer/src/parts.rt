// The parts of an answer's values: the target's number, the entry numbers, the partners. Nothing is taken on trust: what is not there counts as 0, or as
// empty.
ghost use Rattle.std.specs.Prelude.{◌≡◌, take};
ghost use Rattle.answer.specs.Parts.{target_part, counted as Parts·counted, entries_part, partners_part};

use crate::{BEFORE_SIMPLES, TARGET, WORDS};
use bytewise::widths::value_at;

// The target's number.
pub fn target_of(values: &[u16]) -> usize
    ensures { result ≡ target_part values.now }
{
    value_at(values, TARGET)
}

// The first values, at most so many.
pub fn first_values(values: &[u16], most: usize) -> &[u16]
    ensures { result.now ≡ take most values.now }
{
    &values[..most.min(values.len())]
}

// The values that stand behind their count.
fn counted(values: &[u16], at: usize) -> &[u16]
    ensures { result.now ≡ Parts·counted values.now at }
{
    if at < values.len() {
        first_values(&values[at + 1..], usize::from(values[at]))
    } else {
        &[]
    }
}

// The entry numbers.
pub fn entries_of(values: &[u16]) -> &[u16]
    ensures { result.now ≡ entries_part values.now }
{
    counted(values, WORDS)
}

// The partners.
pub fn partners_of(values: &[u16]) -> &[u16]
    ensures { result.now ≡ partners_part values.now }
{
    counted(values, entries_of(values).len() + BEFORE_SIMPLES)
}
