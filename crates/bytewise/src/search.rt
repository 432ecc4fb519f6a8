// Bytes searched for one that is wanted.
ghost use Rattle.std.specs.Prelude.{◌≡◌, ℕ, ◌≤◌, length, get_or};
ghost use Rattle.bytewise.specs.First.{First};

// The place of the first of these bytes from a place on, or the length where there is none: callers cut what stands before it, so an Option is no plainer.
pub fn find_byte(bytes: &[u8], from: usize, byte: u8) -> usize
    requires { from ≤ length bytes.now }
    ensures { (result ≤ length bytes.now) × First (λ (k : ℕ). get_or {A = ℕ} bytes.now k 0 ≡ byte) from (length bytes.now) result }
{
    for i in from..bytes.len() {
        if bytes[i] == byte {
            return i;
        }
    }
    bytes.len()
}
