// A script: the text of a program's cases, line by line, which ends at its first byte 0. A backslash stands for what follows it: `\xNN` for the byte that
// two digits and letters from a to f give, `\n` for a line's end, and any other byte for itself. At a line's end it joins the next line to this one, without
// the spaces that begin that. An empty line, and one that begins with a number sign, counts for nothing.
ghost use Rattle.std.specs.Prelude.{◌<◌, ◌≤◌, length, IfSome};

use crate::buffer::{Buffer, ROOM};
use crate::console::fill;
use std::io;

// The number that a digit or a letter from a to f stands for.
fn digit(sign: u8) -> u8
    ensures { result < 16 }
{
    match sign {
        b'a'..=b'f' => sign - b'a' + 10,
        _ => sign % 16,
    }
}

// Takes the first byte of a text, or 0 where it has none.
fn take_byte(text: &mut &[u8]) -> u8
    ensures { length text.new.now ≤ length text.old.now }
{
    text.split_off_first().copied().unwrap_or(0)
}

// What stands behind the spaces that a text begins with.
fn behind_spaces(text: &[u8]) -> &[u8]
    ensures { length result.now ≤ length text.now }
{
    let spaces = text.iter().take_while(|byte| **byte == b' ').count();
    &text[spaces..]
}

// Puts what a backslash before a text stands for, and gives what stands behind that.
fn take_escaped<'a>(text: &'a [u8], line: &mut Buffer) -> &'a [u8]
    ensures { length result.now ≤ length text.now }
{
    let mut rest = text;
    match take_byte(&mut rest) {
        b'x' => {
            let high = digit(take_byte(&mut rest));
            let low = digit(take_byte(&mut rest));
            line.put(high * 16 + low);
        }
        b'n' => line.put(b'\n'),
        b'\n' => rest = behind_spaces(rest),
        sign => line.put(sign),
    }
    rest
}

// Puts the line that a script begins with in the place of the one before it, and gives what stands behind it. A script at its end has none.
fn take_line<'a>(script: &'a [u8], line: &mut Buffer) -> Option<&'a [u8]>
    ensures { IfSome result (λ rest. length rest.now < length script.now) }
{
    line.clear();
    let mut rest = script;
    // A byte may stand for several that follow it, so the rest is what a turn goes by.
    while let Some((byte, behind)) = rest.split_first() {
        rest = match *byte {
            0 => break,
            b'\n' => return Some(behind),
            b'\\' => take_escaped(behind, line),
            other => {
                line.put(other);
                behind
            }
        };
    }
    (rest.len() < script.len()).then_some(rest)
}

// Hands the lines of a script on, one by one.
fn each_line_of<F: FnMut(&[u8]) -> io::Result<()>>(script: &[u8], mut visit: F) -> io::Result<()>
    requires { F.IsAlwaysCallable visit }
{
    let mut line = Buffer::new();
    let mut rest = script;
    // A line is known when it has been taken, so the rest is what a turn goes by.
    while let Some(behind) = take_line(rest, &mut line) {
        match line.written() {
            None | Some([] | [b'#', ..]) => {}
            Some(text) => visit(text)?,
        }
        rest = behind;
    }
    Ok(())
}

// Hands the lines of the script on standard input on, one by one. Of a longer one it takes the first `ROOM` bytes.
pub fn each_line<F: FnMut(&[u8]) -> io::Result<()>>(rt: &impl Input, visit: F) -> io::Result<()>
    requires { F.IsAlwaysCallable visit }
{
    let mut script = [0; ROOM];
    let length = fill(&mut rt.reader(), &mut script);
    each_line_of(&script[..length], visit)
}
