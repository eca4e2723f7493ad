// The way back from rolls to words: the run of words behind the rolls of one batch, by a division of a wide number. The public
// operation (behind) answers every input.
//
// Contracts cite specs/: Behind (refusals and answer) and Inner.
#![tactic(auto)]

pub mod behind;
pub mod divide;
