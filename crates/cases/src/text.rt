// Texts of bytes: what stands on both sides of a byte, and the number that a text starts with.
ghost use Rattle.std.specs.Prelude.{◌≡◌, ◌↔◌, ◌++◌, ◌∷◌, Contains, IfSome, IsSome};

// What stands before the first such byte of a text, and what stands behind it.
pub fn split_once(text: &[u8], byte: u8) -> Option<(&[u8], &[u8])>
    ensures found { IsSome result ↔ Contains text.now byte }
    ensures parts { IfSome result (λ parts. parts.0.now ++ byte ∷ parts.1.now ≡ text.now) }
    ensures first { IfSome result (λ parts. ¬ Contains parts.0.now byte) }
{
    let at = text.iter().position(|b| *b == byte)?;
    Some((&text[..at], &text[at + 1..]))
}

// The number that the digits at the start of a text spell, of which the last five count, and what stands behind the digits.
pub fn split_number(text: &[u8]) -> (usize, &[u8]) {
    let count = text.iter().take_while(|b| b.is_ascii_digit()).count();
    let (digits, rest) = text.split_at(count);
    let number = digits
        .iter()
        .fold(0, |n, digit| n % 10000 * 10 + usize::from(*digit % 16));
    (number, rest)
}

// The number alone.
pub fn number(text: &[u8]) -> usize {
    split_number(text).0
}
