// The sample: a reservoir and a shuffle of its slots, with batched rolls. First every roll is made, then slots are written.
ghost use Rattle.std.specs.Prelude.{◌≡◌, true, ◌++◌, ◌+◌, ◌≤◌, ◌<◌, length, take, drop};
ghost use Rattle.rules.specs.Width.{w64};
ghost use Rattle.rules.specs.Reservoir.{reservoir};
ghost use Rattle.rules.specs.Rolls.{in_range};
ghost use Rattle.rules.specs.Sample.{sample_bounds, sample_with};
ghost use Rattle.rules.specs.Shuffle.{shuffle_with, shuffle_bounds};
ghost use Rattle.answers.specs.Results.{answer_of};
ghost use Rattle.draws.specs.Sample.{seen_sample};

use super::plan::Size;
use super::rolling::roll_sample;
use answers::limits::MAX_RECORDS;
use answers::refusal::Refusal;
use answers::results::Used;
use rolls::words::Words;
use shuffles::shuffle::exchange_records;

// Puts the first records into the slots, one into each.
fn take_first(records: &[u32], slots: &mut [u32])
    requires { length slots.old ≤ length records.now }
    ensures { slots.new ≡ take (length slots.old) records.now }
{
    // by index: with copy_from_slice the archive for C needs memmove from outside
    for i in 0..slots.len() {
        slots[i] = records[i];
    }
}

// For each record from place k on, where there are k slots, with its roll j: if j is below k, slot j gets the record.
#[tactic(auto, using(crate::proofs::Sampling::later_taken, crate::proofs::Sampling::later_passed, crate::proofs::Sampling::later_done))]
fn take_later(records: &[u32], rolls: &[u64], slots: &mut [u32])
    requires { length slots.old + length rolls.now ≡ length records.now }
    ensures { slots.new ≡ reservoir slots.old (drop (length slots.old) records.now) rolls.now }
{
    let k = slots.len();
    for (i, &roll) in rolls.iter().enumerate() {
        let j = roll as usize;
        if j < k {
            slots[j] = records[k + i];
        }
    }
}

// Shuffles the slots by the rolls, one for each slot but the last to be placed.
#[tactic(auto, using(rules::proofs::Range::range_true, rules::proofs::Turns::turned_none, rules::proofs::Turns::turned_range, rules::proofs::Turns::turned_done))]
fn shuffle_slots(rolls: &[u64], slots: &mut [u32])
    requires { in_range (shuffle_bounds (length slots.old)) rolls.now ≡ true }
    ensures { slots.new ≡ shuffle_with (length slots.old) rolls.now slots.old }
{
    for (i, &roll) in rolls.iter().enumerate() {
        let last = slots.len() - 1 - i;
        exchange_records(slots, roll as usize, last);
    }
}

// Fills the slots by the rolls of a sample: the reservoir by the first of them, one for each record from place k on, then the shuffle of the k
// slots by the others.
#[tactic(auto, using(crate::proofs::Sampling::later_fits, crate::proofs::Sampling::front_range, crate::proofs::Sampling::slots_filled))]
fn fill_slots(records: &[u32], rolls: &[u64], slots: &mut [u32])
    requires { (length slots.old ≤ length records.now) × (in_range (sample_bounds (length records.now) (length slots.old)) rolls.now ≡ true) }
    ensures { slots.new ≡ sample_with (length slots.old) rolls.now records.now }
{
    let later = records.len() - slots.len();
    take_first(records, slots);
    take_later(records, &rolls[..later], slots);
    shuffle_slots(&rolls[later..], slots);
}

// The sample where no refusal before number 10 applies. No slot is written before all the rolls are there.
fn draw_sample(
    words: Words,
    size: Size,
    records: &[u32],
    slots: &mut [u32],
) -> Result<Used, Refusal>
    requires count { size.n ≡ length records.now }
    requires room { size.k ≤ length slots.old }
    ensures answer { answer_of words.entry.next result ≡ (seen_sample w64 words.entry.list.now words.entry.next records.now size.k slots.old).0 }
    ensures slots { slots.new ≡ (seen_sample w64 words.entry.list.now words.entry.next records.now size.k slots.old).1 }
{
    let count = size.n - 1;
    // fixed memory: the library has no heap
    let mut rolls = [0u64; MAX_RECORDS];
    let used = roll_sample(words, size, &mut rolls[..count])?;
    fill_slots(records, &rolls[..count], &mut slots[..size.k]);
    Ok(used)
}

// A sample of k of the records in a drawn order, into the first k of the lent slots; slots past k stay.
//
// The first k records are put in the slots; each later one, at place i, takes the slot of its roll with bound i + 1 if there is one. Then
// the k slots are shuffled, with the words that follow. The bounds k + 1, .., n are cut as a list of bounds; the shuffle has its own batches,
// those of k records. A sample of 1 from 1 uses no word. Refusals, the lowest that applies: 2 more than 16,384 records, 3 k is 0 or above
// n, 6 fewer than k slots, 9 start above the number of words, 10 the words end before some batch has one; the slots are then exactly what
// they were. At 10 the batches of the shuffle are counted on from those of the reservoir. The cost is that of a list of n - k bounds and of a
// shuffle of k records, and two local arrays of 16,384 numbers whatever n is. Of 101, 205, 309 with k = 1 and words 0, 1 it takes 309: next
// is 2 and one word is rejected; with k = 3 the same words shuffle them to 205, 309, 101. While the rules stand the same input has the same
// answer.
pub fn sample_records(
    words: &[u64],
    start: usize,
    records: &[u32],
    k: usize,
    slots: &mut [u32],
) -> Result<Used, Refusal>
    ensures answer { answer_of start result ≡ (seen_sample w64 words.now start records.now k slots.old).0 }
    ensures slots { slots.new ≡ (seen_sample w64 words.now start records.now k slots.old).1 }
{
    let n = records.len();
    if MAX_RECORDS < n {
        return Err(Refusal::Count);
    }
    if k < 1 {
        return Err(Refusal::Sample);
    }
    if n < k {
        return Err(Refusal::Sample);
    }
    if slots.len() < k {
        return Err(Refusal::Room);
    }
    let words = Words::from(words, start)?;
    draw_sample(words, Size { n, k }, records, slots)
}
