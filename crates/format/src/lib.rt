// The records of a book where they stand, and the names of its basic types.
#![tactic(auto)]

pub mod layout;
pub mod names;
