// From words to rolls: a look at the bounds of a batch, the search for a batch's word, the word unfolded, one batch, and the batches of a plan,
// one after the other. The public operation (batch) answers every input; the others ask what their callers know.
//
// Contracts cite specs/: Batch (refusals, plan and reading of one batch), Plan (batches by places) and Inner (what the inner functions answer).
#![tactic(auto)]

pub mod batch;
pub mod check;
pub mod plan;
pub mod search;
pub mod unfold;
pub mod words;
