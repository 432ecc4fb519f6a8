// A line: any bytes at all. Its words are found where they stand, and it is refused for a byte, a word, a word without an entry or too
// many simple types, in this order.
#![tactic(auto)]

pub mod split;
pub mod words;
