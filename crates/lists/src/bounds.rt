// A list of bounds, and its batches.
ghost use Rattle.std.specs.Prelude.{◌≡◌, true, false, ◌^◌, ◌<◌, length, drop, slice_index, EachIndex, MatchResult};
ghost use Rattle.std.proofs.Common.{ap};
ghost use Rattle.std.proofs.Math.Seq.{drop-length};
ghost use Rattle.rules.specs.Rolls.{holds_zero};
ghost use Rattle.rules.specs.Cut.{cut};
ghost use Rattle.answers.specs.declared.refusal.Refusal.TheVariants.{Zero};

use super::cut::cut_at;
use answers::refusal::Refusal;
use arithmetic::bounds::has_zero;
use rolls::plan::{Cut, Plan};
use rolls::unfold::write_rolls;

// A list of bounds, none of them 0.
#[derive(Clone, Copy)]
pub struct Bounds<'a> {
    pub list: &'a [u64],
    ghost no_zero: { holds_zero list.now ≡ false },
    ghost fits: { EachIndex list.now (λ i. slice_index list.now i < 2 ^ 64) },
}

// Refused where some bound is 0.
impl<'a> TryFrom<&'a [u64]> for Bounds<'a> {
    type Error = Refusal;

    ghost try_from_gives = { λ list outcome. MatchResult outcome (λ bounds. bounds.list.now ≡ list.now) (λ refusal. (refusal ≡ Zero) × (holds_zero list.now ≡ true)) };

    fn try_from(list: &'a [u64]) -> Result<Bounds<'a>, Refusal> {
        if has_zero(list) {
            return Err(Refusal::Zero);
        }
        Ok(Bounds { list })
    }
}

impl<'a> Plan for Bounds<'a> {
    ghost batches = { λ b at. cut (2 ^ 56) (drop at b.list.now) };

    ghost bounds = { λ b. length b.list.now };

    fn count(&self) -> usize {
        self.list.len()
    }

    fn cut(&self, at: usize) -> Cut {
        cut_at(self.list, at)
    }

    fn unfold(&self, at: usize, end: usize, word: u64, out: &mut [u64]) {
        write_rolls(word, &self.list[at..end], out)
    }

    // Behind the last bound there is no batch.
    ghost ends = { λ b. unfold cut in ap (cut (2 ^ 56)) (drop-length b.list.now) };
}
