// Linkings and readings, and which of them comes first. All of this crate is specs/ and proofs/; the code that finds a reading lies above.
#![tactic(auto)]
