// The way back from an order to its rolls. The public operation answers every input.
//
// Contracts cite specs/: Order (refusals and answer).
#![tactic(auto)]

pub mod order;
