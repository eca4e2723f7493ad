// The arithmetic under every roll: the wide product of two words, the threshold, the product of a batch's bounds and its limit. Nothing
// here knows of word lists or records.
//
// Contracts cite specs/: Products (a product held against 2^64).
#![tactic(auto)]

pub mod bounds;
pub mod wide;
