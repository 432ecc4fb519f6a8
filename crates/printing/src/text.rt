// An exponent as a field of a row.
ghost use Rattle.std.specs.Prelude.{◌≡◌, [], ◌∷◌, ◌++◌, pos, ◌-ℤ◌};
ghost use Rattle.pregroup.specs.Held.{bias};
ghost use Rattle.writing.specs.Placed.{Countable, Placed};
ghost use Rattle.printing.specs.Text.{signed};

use pregroup::EXPONENT_BIAS;
use writing::Text;

// What an exponent is raised by where it is held.
const BIAS: usize = EXPONENT_BIAS as usize;

// Puts an exponent, given raised as it is held, and the byte that closes the field.
pub(crate) fn put_exponent(text: &mut Text, raised: usize, close: u8)
    requires { Countable text.old.place (signed (pos raised -ℤ pos bias) ++ (close ∷ [])) }
    ensures lent { text.new.bytes.ghost_name ≡ text.old.bytes.ghost_name }
    ensures placed { Placed text.old.bytes.now text.old.place (signed (pos raised -ℤ pos bias) ++ (close ∷ [])) text.new.bytes.now text.new.place }
{
    if BIAS <= raised {
        text.put_number(raised - BIAS, close);
    } else {
        text.put_byte(b'-');
        text.put_number(BIAS - raised, close);
    }
}
