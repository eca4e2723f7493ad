// Draw sheets: what a sheet holds, when it is sound, reading it and running it.
//
// Contracts cite specs/: Sheet (six numbers, two areas, soundness), ReadSheet (what is read), RunSheet (the draw of a
// sheet) and Results (what a caller from C sees of either).
#![tactic(auto)]

pub mod drawn;
pub mod read;
pub mod run;
