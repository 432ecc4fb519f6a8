// The look-up of a word among the entries of a book. Words are compared where they stand, in line and book, and what is kept of them are numbers
// of entries: threads of the entries that are alike by a key, made once for a book, and threads of those of the same word.
#![tactic(auto)]

pub mod find;
pub mod keys;
pub mod walk;
