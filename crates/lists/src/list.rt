// A list of bounds, cut into batches.
ghost use Rattle.std.specs.Prelude.{◌≡◌};
ghost use Rattle.rules.specs.Width.{w64};
ghost use Rattle.answers.specs.Results.{answer_of};
ghost use Rattle.lists.specs.List.{seen_list};

use super::bounds::Bounds;
use answers::refusal::Refusal;
use answers::results::Used;
use rolls::plan::{supply, write};
use rolls::words::Words;

// The most bounds of a list.
const MAX_BOUNDS: usize = 4096;

// A roll for each bound of the list, into the front of the lent list; the rest of it stays.
//
// The list is cut into batches, and each takes the first word after the one before it that it accepts. Refusals, the lowest that
// applies: 2 above 4,096 bounds, 4 some bound 0, 6 the lent list too short, 9 start above the number of words, 10 the words end
// before some batch has one; the lent list is then exactly what it was. Two passes over bounds and words, each with the two halves
// of a product for each bound that may join, a remainder for each batch and a multiplication for each word looked at; the two
// halves of a product for each roll. With bounds 2, 6 and words 0, 1 the rolls are 0, 0, next is 2 and one word is rejected. While
// the rules stand the same input has the same answer.
#[tactic(auto, using(crate::proofs::OneList::list_many))]
pub fn roll_list(
    words: &[u64],
    start: usize,
    bounds: &[u64],
    rolls: &mut [u64],
) -> Result<Used, Refusal>
    ensures answer { answer_of start result ≡ (seen_list w64 words.now start bounds.now rolls.old).0 }
    ensures rolls { rolls.new ≡ (seen_list w64 words.now start bounds.now rolls.old).1 }
{
    if MAX_BOUNDS < bounds.len() {
        return Err(Refusal::Count);
    }
    let plan = Bounds::try_from(bounds)?;
    if rolls.len() < bounds.len() {
        return Err(Refusal::Room);
    }
    let words = Words::from(words, start)?;
    let used = supply(words, &plan)?;
    write(words, &plan, rolls);
    Ok(used)
}
