// What the signs of a type written with slashes say by themselves, how deep its brackets go and how many simple types it has; and the adjoint of a
// type in place.
#![tactic(auto)]

pub mod adjoint;
pub mod brackets;
