// What the caller of an operation gets: the refusals with their numbers, what comes where nothing is refused, and both as one answer for
// a caller from C. The limits that several operations share stand here too.
//
// Contracts here cite specs/Results: what a result says. Those of the operations cite specs/Outcome too, refusals and what a caller sees,
// and specs/Supplied.
#![tactic(auto)]

pub mod answer;
pub mod limits;
pub mod refusal;
pub mod results;
