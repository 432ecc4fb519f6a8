// The adjoint of a type in place: the string reversed, and every exponent moved by one.
ghost use Rattle.std.specs.Prelude.{◌≡◌};
ghost use Rattle.notation.specs.Places.{moved, Turnable, Turned, Movable};

// What is added to a held simple type, or taken from it, to move its exponent by one.
const ONE: u16 = 256;

// On which side a type's adjoint stands.
#[derive(Clone, Copy)]
pub enum Side {
    Left,
    Right,
}

// A held simple type with its exponent one down (left) or up (right).
fn shift(simple: u16, side: Side) -> u16
    requires { Movable simple }
    ensures { result ≡ moved side simple }
{
    match side {
        Side::Left => simple - ONE,
        Side::Right => simple + ONE,
    }
}

// Turns a type into its left or right adjoint. Most have one simple type, and are moved where they stand.
pub fn turn(simples: &mut [u16], side: Side)
    requires { Turnable simples.old }
    ensures { Turned side simples.old simples.new }
{
    if let [simple] = simples {
        *simple = shift(*simple, side);
        return;
    }
    // Both ends are turned until they meet. `reverse` and a second pass that shifts take longer for a short type.
    let count = simples.len();
    for i in 0..(count + 1) / 2 {
        let j = count - 1 - i;
        let x = shift(simples[i], side);
        let y = shift(simples[j], side);
        simples[i] = y;
        simples[j] = x;
    }
}
