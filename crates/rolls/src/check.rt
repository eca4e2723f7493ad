// The bounds of one batch, looked at before any word is: numbers 2, 4 and 5.
ghost use Rattle.std.specs.Prelude.{◌≡◌, [], ⊤, MatchResult};
ghost use Rattle.rules.specs.Width.{w64};
ghost use Rattle.answers.specs.Outcome.{done, decide, of_bounds};
ghost use Rattle.answers.specs.Results.{batch_of, numbered};
ghost use Rattle.rolls.specs.Inner.{checked};

use answers::limits::MAX_BATCH;
use answers::refusal::Refusal;
use arithmetic::bounds::{Product, has_zero, product_of};

// The product of the bounds of one batch. Refused: 2 none or more than 16, 4 some bound 0, 5 product above 2^64.
#[tactic(auto, using(crate::proofs::Checking::checked_none))]
pub fn check_bounds(bounds: &[u64]) -> Result<Product, Refusal>
    ensures bounds { numbered result ≡ checked bounds.now (decide (of_bounds w64 bounds.now) (done [] [])) }
    ensures batch { MatchResult result (λ product. ⊤) (λ refusal. batch_of refusal ≡ 0) }
{
    if bounds.len() < 1 {
        return Err(Refusal::Count);
    }
    if MAX_BATCH < bounds.len() {
        return Err(Refusal::Count);
    }
    if has_zero(bounds) {
        return Err(Refusal::Zero);
    }
    product_of(bounds).ok_or(Refusal::Product)
}
