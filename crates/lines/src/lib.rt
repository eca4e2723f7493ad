// The text that tells of the draw of a sheet.
//
// Contracts cite specs/: Text (each line, and the whole output). Pinned has sentences that the text meets.
#![tactic(auto)]

pub mod text;
