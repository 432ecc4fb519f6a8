// Bytes put into a lent buffer that may be too short: each piece stands behind the one before it, and bytes for which there is no room are left
// out, so that an empty buffer only counts.
#![tactic(auto)]

ghost use Rattle.std.specs.Prelude.{◌≡◌, [], ◌∷◌, ◌++◌, ◌+◌, ◌%◌};
ghost use Rattle.writing.specs.Decimal.{decimal};
ghost use Rattle.writing.specs.Placed.{Countable, Placed};

// A lent buffer, and the place where the next piece is to stand. `lent` says of a method that the buffer stays the one that was lent.
#[derive(Drop)]
pub struct Text<'a> {
    pub bytes: &'a mut [u8],
    pub place: usize,
}

// The last digit of a number, in ASCII.
fn last_digit(number: usize) -> u8
    ensures { result ≡ 48 + number % 10 }
{
    b'0' + (number % 10) as u8
}

impl Text<'_> {
    // Puts one byte.
    pub fn put_byte(&mut self, byte: u8)
        requires { Countable self.old.place (byte ∷ []) }
        ensures lent { self.new.bytes.ghost_name ≡ self.old.bytes.ghost_name }
        ensures placed { Placed self.old.bytes.now self.old.place (byte ∷ []) self.new.bytes.now self.new.place }
    {
        if self.place < self.bytes.len() {
            self.bytes[self.place] = byte;
        }
        self.place += 1;
    }

    // Puts bytes as they stand.
    pub fn put_bytes(&mut self, bytes: &[u8])
        requires { Countable self.old.place bytes.now }
        ensures lent { self.new.bytes.ghost_name ≡ self.old.bytes.ghost_name }
        ensures placed { Placed self.old.bytes.now self.old.place bytes.now self.new.bytes.now self.new.place }
    {
        for byte in bytes {
            self.put_byte(*byte);
        }
    }

    // Puts a number as a decimal. The library's `write!` is no plainer: it gives a `fmt::Result` to pass on.
    pub fn put_decimal(&mut self, number: usize)
        requires { Countable self.old.place (decimal number) }
        ensures lent { self.new.bytes.ghost_name ≡ self.old.bytes.ghost_name }
        ensures placed { Placed self.old.bytes.now self.old.place (decimal number) self.new.bytes.now self.new.place }
    {
        if 10 <= number {
            self.put_decimal(number / 10);
        }
        self.put_byte(last_digit(number));
    }

    // Puts bytes and the byte that closes the field.
    pub fn put_text(&mut self, bytes: &[u8], close: u8)
        requires { Countable self.old.place (bytes.now ++ (close ∷ [])) }
        ensures lent { self.new.bytes.ghost_name ≡ self.old.bytes.ghost_name }
        ensures placed { Placed self.old.bytes.now self.old.place (bytes.now ++ (close ∷ [])) self.new.bytes.now self.new.place }
    {
        self.put_bytes(bytes);
        self.put_byte(close);
    }

    // Puts a number and the byte that closes the field.
    pub fn put_number(&mut self, number: usize, close: u8)
        requires { Countable self.old.place (decimal number ++ (close ∷ [])) }
        ensures lent { self.new.bytes.ghost_name ≡ self.old.bytes.ghost_name }
        ensures placed { Placed self.old.bytes.now self.old.place (decimal number ++ (close ∷ [])) self.new.bytes.now self.new.place }
    {
        self.put_decimal(number);
        self.put_byte(close);
    }
}
