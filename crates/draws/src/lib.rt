// The sample: a reservoir and a shuffle of its slots, with batched rolls. The public operation (sample) answers every input; rolling asks
// what its callers know.
//
// Contracts cite specs/: Sample (refusals, plan and reading of a sample) and Inner (its batches by places, and what rolling a sample comes to).
#![tactic(auto)]

pub mod plan;
pub mod rolling;
pub mod sample;
