// An operation's batches, one after the other, and the words for them.
ghost use Rattle.std.specs.Prelude.{◌≡◌, [], true, ℕ, ◌+◌, ◌-◌, ◌<◌, ◌≤◌, ◌++◌, List, length, drop};
ghost use Rattle.rules.specs.Rolls.{rolls};
ghost use Rattle.rules.specs.Run.{run, trace, rolls_of, suffices};
ghost use Rattle.answers.specs.Supplied.{supplied};
ghost use Rattle.rolls.specs.Plan.{BatchAt, begins};

use super::search::find_word;
use super::words::Words;
use answers::refusal::Refusal;
use answers::results::Used;
use arithmetic::bounds::Product;

// A batch: the place where it ends, and the product of its bounds.
#[derive(Clone, Copy, Debug, PartialEq, Eq)]
pub struct Cut {
    pub end: usize,
    pub product: Product,
}

// The bounds of an operation, cut into batches. A place counts the bounds before it.
pub trait Plan {
    // The batches from a place on.
    ghost batches: { Self → ℕ → List (List ℕ) };

    // How many bounds there are.
    ghost bounds: { Self → ℕ };

    fn count(&self) -> usize
        ensures { result ≡ bounds self.now };

    // The batch that begins at a place.
    fn cut(&self, at: usize) -> Cut
        requires { at < bounds self.now }
        ensures { BatchAt (batches self.now) (bounds self.now) at result };

    // Writes the rolls that a word gives for the batch from a place up to another, to the front of the lent list; the rest of it stays.
    fn unfold(&self, at: usize, end: usize, word: u64, out: &mut [u64])
        requires begun { at < bounds self.now }
        requires ended { end ≡ at + length (begins (batches self.now at)) }
        requires room { end - at ≤ length out.old }
        ensures { out.new ≡ rolls 64 (begins (batches self.now at)) word ++ drop (end - at) out.old };

    // Behind the last bound there is no batch.
    ghost ends: { (plan : Self) → batches plan (bounds plan) ≡ [] };
}

// Takes a word for each batch of the plan, and keeps none. It is known before anything is written whether the words suffice: a refusal
// leaves every lent list as it was.
pub fn supply<P: Plan>(words: Words, plan: &P) -> Result<Used, Refusal>
    ensures { result ≡ supplied words.entry.next (run 64 (P.batches plan.now 0) words.entry.list.now words.entry.next) }
{
    let mut next = words.next;
    let mut rejected: usize = 0;
    let mut batch: usize = 0;
    let mut at: usize = 0;
    // by places and not by a range: where the next batch begins is told by the cut. Written out here, below and in the shuffle: one walk that
    // gives each batch with its word made a sample an eighth slower
    while at < plan.count() {
        let cut = plan.cut(at);
        let hit = find_word(words.at(next), cut.product).ok_or(Refusal::Words { batch })?;
        next = hit.place + 1;
        rejected += hit.rejected;
        batch += 1;
        at = cut.end;
    }
    Ok(Used { next, rejected })
}

// Writes the rolls of every batch, one after the other, to the front of the lent list, where it is known that the words suffice.
pub fn write<P: Plan>(words: Words, plan: &P, rolls: &mut [u64])
    requires room { P.bounds plan.now ≤ length rolls.old }
    requires enough { suffices (run 64 (P.batches plan.now 0) words.list.now words.next) ≡ true }
    ensures { rolls.new ≡ rolls_of 64 (P.batches plan.now 0) (trace (run 64 (P.batches plan.now 0) words.entry.list.now words.entry.next)) ++ drop (P.bounds plan.now) rolls.old }
{
    let mut next = words.next;
    let mut at: usize = 0;
    // by places, as above
    while at < plan.count() {
        let cut = plan.cut(at);
        let Some(hit) = find_word(words.at(next), cut.product) else {
            unreachable!()
        };
        plan.unfold(at, cut.end, hit.word, &mut rolls[at..]);
        next = hit.place + 1;
        at = cut.end;
    }
}
