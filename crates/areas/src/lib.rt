// Numbers in bytes, low byte first, and the numbers of an area.
//
// Contracts cite specs/Area: a number of so many bytes at a place, the numbers that stand one behind the other from a place on, and the
// bytes of both.
#![tactic(auto)]

pub mod number;
pub mod read;
pub mod write;
