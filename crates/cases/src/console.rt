// Input, as the programs of cases and the program `reading` take it.
ghost use Rattle.std.specs.Prelude.{◌≡◌, ◌≤◌, length, take};

use std::io::Read;

// Puts what a reader gives, or as much of it as there is room for and can be read, at the start of `buf`, and gives the number of its bytes there.
// It is a loop of its own, since `read_to_end` of std takes a `Vec`, which allocates.
pub fn fill<R: Read>(reader: &mut R, buf: &mut [u8]) -> usize
    ensures within { result ≤ length buf.new }
    ensures counted { result ≡ length (take result buf.new) }
{
    let mut count = 0;
    // A read gives any number of bytes, so there is no range to go over.
    while count < buf.len() {
        match reader.read(&mut buf[count..]) {
            Ok(0) | Err(_) => break,
            Ok(got) => count += got,
        }
    }
    count
}
