// What is told of a place where nothing is refused.
ghost use Rattle.std.specs.Prelude.{◌≡◌, is_some};
ghost use Rattle.reasons.specs.Fate.{drawn};

use super::fate::Fate;
use answers::results::Used;

// What became of a place in a draw, the slot where the final shuffle puts its record if it was drawn, and the words that the draw used.
#[derive(Clone, Copy, Debug, PartialEq, Eq)]
pub struct Told {
    pub used: Used,
    pub fate: Fate,
    pub final_slot: Option<usize>,
    ghost kept: { is_some final_slot ≡ drawn fate },
}
