// Writing draw sheets.
//
// Contracts cite specs/: WriteSheet (the bytes of a sheet, and what its writer answers) and Results (what a result says).
#![tactic(auto)]

pub mod write;
pub mod written;
