// One batch of bounds.
ghost use Rattle.std.specs.Prelude.{◌≡◌, ⊤, MatchResult};
ghost use Rattle.rules.specs.Width.{w64};
ghost use Rattle.answers.specs.Results.{batch_of, batch_answer_of};
ghost use Rattle.rolls.specs.Batch.{seen_batch};

use super::check::check_bounds;
use super::search::find_word;
use super::unfold::write_rolls;
use super::words::Words;
use answers::limits::MAX_BATCH;
use answers::refusal::Refusal;
use answers::results::{Rolled, Used};

// The rolls of one batch: sixteen places with their count.
//
// The first accepted word from the start on is used, and every word before it rejected. Refusals, the lowest that applies: 2 no
// bound or more than 16, 4 some bound 0, 5 product above 2^64, 9 start above the number of words, 10 no word accepted. The two
// halves of a product for each bound and for each roll, one remainder, none for a product of 2^64, and a multiplication for each
// word looked at. With bounds 2, 6 and words 0, 1 the rolls are 0, 0, next is 2 and one word is rejected. While the rules stand the
// same input has the same answer.
pub fn roll_batch(words: &[u64], start: usize, bounds: &[u64]) -> Result<Rolled, Refusal>
    ensures answer { batch_answer_of start result ≡ seen_batch w64 words.now start bounds.now }
    ensures batch { MatchResult result (λ rolled. ⊤) (λ refusal. batch_of refusal ≡ 0) }
{
    let product = check_bounds(bounds)?;
    let words = Words::from(words, start)?;
    let hit = find_word(words, product).ok_or(Refusal::Words { batch: 0 })?;
    // sixteen places with a count, as C gets them
    let mut rolls = [0u64; MAX_BATCH];
    write_rolls(hit.word, bounds, &mut rolls);
    Ok(Rolled {
        rolls,
        count: bounds.len(),
        used: Used {
            next: hit.place + 1,
            rejected: hit.rejected,
        },
    })
}
