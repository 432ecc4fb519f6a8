// How rows show the values of a buffer.
use std::fmt;

// Values, each behind a space.
#[derive(Clone, Copy)]
pub struct Values<'a>(pub &'a [u16]);

impl fmt::Display for Values<'_> {
    fn fmt<W: fmt::Write>(&self, f: &mut fmt::Formatter<W>) -> fmt::Result {
        for value in self.0 {
            write!(f, " {value}")?;
        }
        Ok(())
    }
}
