// Bytes where they stand: compared eight at a time, searched, and read as numbers.
#![tactic(auto)]

pub mod compare;
pub mod search;
pub mod widths;
