// The shuffle: Fisher-Yates with batched rolls. The public operation (shuffle) answers every input; its batches (plan) are read by the
// dry run, by the shuffle and by a reader of rolls.
//
// Contracts cite specs/: Shuffle (refusals, plan and reading of a shuffle).
#![tactic(auto)]

pub mod plan;
pub mod shuffle;
