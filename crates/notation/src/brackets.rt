// What a text's signs say by themselves: how deep its brackets go, and how many simple types a type with its slashes has.
ghost use Rattle.std.specs.Prelude.{◌≡◌, suc};
ghost use Rattle.notation.specs.Brackets.{too_deep};
ghost use Rattle.notation.specs.Trees.{slashes};

use figures::limits::MAX_DEPTH;

// Whether somewhere over six brackets are open.
pub fn is_too_deep(text: &[u8]) -> bool
    ensures { result ≡ too_deep text.now }
{
    let mut opened = 0;
    let mut closed = 0;
    for byte in text {
        opened += usize::from(*byte == b'(');
        closed += usize::from(*byte == b')');
        if closed + MAX_DEPTH < opened {
            return true;
        }
    }
    false
}

// How many simple types the type of this text has: one more than the text has slashes.
pub fn count_simples(text: &[u8]) -> usize
    ensures { result ≡ suc (slashes text.now) }
{
    1 + text
        .iter()
        .filter(|byte| matches!(**byte, b'/' | b'\\'))
        .count()
}
