// A list of bounds, cut into batches: the cut, the list as a plan, and the rolls. The public operation (list) answers every input; the
// cut asks what its callers know.
//
// Contracts cite specs/: List (refusals, plan and reading of a list) and Inner (what the cut answers).
#![tactic(auto)]

pub mod bounds;
pub mod cut;
pub mod list;
