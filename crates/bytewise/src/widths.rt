// Numbers of 16 bits, read in the width that the code counts in.
ghost use Rattle.std.specs.Prelude.{◌≡◌, ◌+◌, ◌<◌, length, get_or};
ghost use Rattle.bytewise.specs.Compare.{ReadsNumber};

// The number at a place of a list of 16-bit ones, 0 where the list has no such place.
pub fn value_at(values: &[u16], at: usize) -> usize
    ensures { result ≡ get_or values.now at 0 }
{
    values.get(at).map_or(0, |value| usize::from(*value))
}

// The little-endian number of the two bytes from `at` on.
#[tactic(auto, using(crate::proofs::Comparing::number_of_two))]
pub fn two_bytes(bytes: &[u8], at: usize) -> usize
    requires { at + 1 < length bytes.now }
    ensures { ReadsNumber 2 bytes.now at result }
{
    usize::from(u16::from_le_bytes([bytes[at], bytes[at + 1]]))
}
