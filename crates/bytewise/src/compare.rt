// Bytes compared eight at a time, each eight of them as one number. Fewer than eight are compared one by one.
ghost use Rattle.std.specs.Prelude.{◌≡◌, true, ◌+◌, ◌≤◌, ◌<◌, length};
ghost use Rattle.bytewise.specs.Compare.{ReadsNumber, FirstOther};

// Whether a and b hold the same bytes: the first eight that are not equal tell, or the last eight. The library's `==` is a call, which a search for a
// name makes for each name. For equal lists of 9 to 15 bytes it takes twice the instructions.
#[tactic(auto, using(crate::proofs::Comparing::first_other_tells, crate::proofs::Comparing::other_length))]
pub fn same(a: &[u8], b: &[u8]) -> bool
    ensures { (result ≡ true → a.now ≡ b.now) × (a.now ≡ b.now → result ≡ true) }
{
    if a.len() != b.len() {
        false
    } else if a.len() < 8 {
        same_bytes(a, b)
    } else {
        let at = first_other(a, b);
        eight_bytes(a, at) == eight_bytes(b, at)
    }
}

// The same for two lists of one length, byte by byte.
#[tactic(auto, using(crate::proofs::Comparing::other_byte, crate::proofs::Comparing::all_bytes))]
fn same_bytes(a: &[u8], b: &[u8]) -> bool
    requires { length a.now ≡ length b.now }
    ensures { (result ≡ true → a.now ≡ b.now) × (a.now ≡ b.now → result ≡ true) }
{
    for i in 0..a.len() {
        if a[i] != b[i] {
            return false;
        }
    }
    true
}

// Where the first eight bytes stand that are not equal, of those one behind another and the last eight; the place of the last eight if none of
// those before is.
#[tactic(auto, using(crate::proofs::Comparing::agree_more))]
pub fn first_other(a: &[u8], b: &[u8]) -> usize
    requires { (length a.now ≡ length b.now) × (8 ≤ length a.now) }
    ensures { FirstOther a.now b.now result }
{
    for k in 0..(a.len() - 1) / 8 {
        if eight_bytes(a, 8 * k) != eight_bytes(b, 8 * k) {
            return 8 * k;
        }
    }
    a.len() - 8
}

// Eight bytes as one little-endian number: the compiler makes one load of it.
#[tactic(auto, using(crate::proofs::Comparing::number_of_eight))]
pub fn eight_bytes(bytes: &[u8], at: usize) -> usize
    requires { at + 7 < length bytes.now }
    ensures { ReadsNumber 8 bytes.now at result }
{
    usize::from_le_bytes([
        bytes[at],
        bytes[at + 1],
        bytes[at + 2],
        bytes[at + 3],
        bytes[at + 4],
        bytes[at + 5],
        bytes[at + 6],
        bytes[at + 7],
    ])
}
