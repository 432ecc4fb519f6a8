// The paper's figures, each in one place: the limits of books and lines with the sizes that follow from them, and the numbers of the refusals.
#![tactic(auto)]

pub mod limits;
pub mod refusals;
