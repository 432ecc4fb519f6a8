// Why a book, a line or a batch is refused, and a refusal with its number and value. `specs/Refusals` has the same numbers for contracts.
ghost use Rattle.std.specs.Prelude.{◌≡◌};
ghost use Rattle.figures.specs.Refusals.{number_of};

use std::fmt;

// The causes of refusals, each with its number.
#[derive(Clone, Copy)]
pub enum Cause {
    // Book over 65,535 bytes.
    BookTooLong = 1,
    // Head or body cut short.
    CutShort = 2,
    // Kind not listed.
    KindNotListed = 3,
    // Body not of its kind's layout.
    BadLayout = 4,
    // Type number not declared by an earlier record.
    UndeclaredType = 5,
    // Exponent outside -8 to 8.
    ExponentOutside = 6,
    // Type name used before.
    NameUsed = 7,
    // Ninth target.
    TooManyTargets = 8,
    // 65th basic type or 1,025th entry.
    TooManyRecords = 9,
    // Book ends without a target.
    NoTarget = 10,
    // Line byte outside 32 to 126.
    BadLineByte = 11,
    // Word over 31 bytes, or a 25th word.
    BadWord = 12,
    // Word without an entry.
    UnknownWord = 13,
    // Over 512 simple types.
    TooManySimples = 14,
    // No reading.
    NoReading = 15,
    // Answer buffer too short.
    BufferTooShort = 16,
    // Batch of over 32 lines or over 65,535 bytes, or with a last line that is not closed.
    BadBatch = 17,
    // Answers of a batch do not fit.
    AnswersTooLong = 18,
    // Brackets of a text open by more than six.
    BracketsTooDeep = 19,
    // Text that is no type.
    NotAType = 20,
    // Text of over 12 simple types.
    TypeTooLong = 21,
}

// A refusal: the number of its cause, and the value returned with it. A caller may list any number (`render` of listing), so it is no `Cause`.
#[derive(Clone, Copy)]
pub struct Refusal {
    pub number: u32,
    pub value: usize,
}

impl fmt::Display for Refusal {
    fn fmt<W: fmt::Write>(&self, f: &mut fmt::Formatter<W>) -> fmt::Result {
        write!(f, "no {} {}", self.number, self.value)
    }
}

impl Cause {
    // The number of the cause.
    pub fn number(self) -> u32
        ensures { result ≡ number_of self }
    {
        self as u32
    }

    // The refusal for this cause, with a value.
    pub fn with(self, value: usize) -> Refusal
        ensures { result ≡ record { number = number_of self; value = value } }
    {
        Refusal {
            number: self.number(),
            value,
        }
    }
}
