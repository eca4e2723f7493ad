// Why a record of a draw sheet was drawn or not: what became of its place in the reservoir, and where the final shuffle put it.
//
// Contracts cite specs/: Fate (what became of a place), Why (the refusals, and what a caller sees) and Results (what a result says). That
// what is told is what happened, and that nothing else did, is said in specs/Happened and specs/Pinned.
#![tactic(auto)]

pub mod fate;
pub mod reason;
pub mod told;
pub mod why;
