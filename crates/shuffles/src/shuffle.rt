// The shuffle: Fisher-Yates with batched rolls.
ghost use Rattle.std.specs.Prelude.{◌≡◌, true, ◌≤◌, ◌<◌, length};
ghost use Rattle.answers.specs.Results.{answer_of};
ghost use Rattle.rules.specs.Rolls.{rolls};
ghost use Rattle.rules.specs.Width.{size64, w64};
ghost use Rattle.rules.specs.Run.{run, trace, rolls_of, suffices};
ghost use Rattle.rules.specs.Shuffle.{exchange, shuffle_with, countdown, shuffle_plan};
ghost use Rattle.shuffles.specs.Shuffle.{seen_shuffle};

use super::plan::{Countdown, Falling};
use answers::refusal::Refusal;
use answers::results::Used;
use rolls::plan::{Plan, supply};
use rolls::search::find_word;
use rolls::unfold::Unfolding;
use rolls::words::Words;

// Exchanges the records at places i and j.
#[tactic(auto, using(std::proofs::lemmas::List::Edits::swap_is), unfolding(rules::specs::Shuffle::exchange))]
pub fn exchange_records(records: &mut [u32], i: usize, j: usize)
    requires { (i < length records.old) × (j < length records.old) }
    ensures { records.new ≡ exchange records.old i j }
{
    records.swap(i, j);
}

// Places the records of one batch by the rolls of its word, with m still to place: for each bound in turn, the record at place roll is
// exchanged with the last of those that are left.
#[tactic(auto, using(crate::proofs::Placing::place_turn, crate::proofs::Placing::place_done, rules::proofs::Rolls::roll_below))]
fn place_batch(records: &mut [u32], batch: Falling, word: u64)
    requires { batch.m ≤ length records.old }
    ensures { records.new ≡ shuffle_with batch.m (rolls 64 (countdown batch.s batch.m) word) records.old }
{
    let mut unfolding = Unfolding { r: word };
    for i in 0..batch.s {
        let bound = (batch.m - i) as u64;
        let roll = unfolding.roll(bound);
        exchange_records(records, roll as usize, batch.m - i - 1);
    }
}

// Shuffles the records, where it is known that the words suffice.
fn place_all(words: Words, plan: Countdown, records: &mut [u32])
    requires all { plan.records ≡ length records.old }
    requires enough { suffices (run 64 (shuffle_plan size64 (length records.old)) words.list.now words.next) ≡ true }
    ensures { records.new ≡ shuffle_with (length records.old) (rolls_of 64 (shuffle_plan size64 (length records.old)) (trace (run 64 (shuffle_plan size64 (length records.old)) words.entry.list.now words.entry.next))) records.old }
{
    let n = records.len();
    let mut next = words.next;
    let mut at: usize = 0;
    // by places, as in the dry run: where the next batch begins is told by the cut
    while at < plan.count() {
        let cut = plan.cut(at);
        let Some(hit) = find_word(words.at(next), cut.product) else {
            unreachable!()
        };
        let batch = Falling {
            m: n - at,
            s: cut.end - at,
        };
        place_batch(records, batch, hit.word);
        next = hit.place + 1;
        at = cut.end;
    }
}

// The records in a drawn order, by the Fisher-Yates shuffle with bounds n, n - 1, .., 2, cut into batches of fixed sizes.
//
// Each batch takes the first word after the one before it that it accepts; 0 or 1 record uses none. Refusals, the lowest that applies:
// 2 more than 16,384 records, 9 start above the number of words, 10 the words end before some batch has one; the records are then
// exactly what they were. Two passes over the words, each with a multiplication for each record and each word looked at and a
// remainder for each batch; the two halves of a product for each record. Of 0, 1, 2 with words 0, 1 it makes 1, 2, 0: next is 2 and
// one word is rejected. While the rules stand the same input has the same answer.
pub fn shuffle_records(words: &[u64], start: usize, records: &mut [u32]) -> Result<Used, Refusal>
    ensures answer { answer_of start result ≡ (seen_shuffle w64 words.now start records.old).0 }
    ensures records { records.new ≡ (seen_shuffle w64 words.now start records.old).1 }
{
    let plan = Countdown::try_from(records.len())?;
    let words = Words::from(words, start)?;
    let used = supply(words, &plan)?;
    place_all(words, plan, records);
    Ok(used)
}
