// The way back from an order to rolls. That there are at most 16,384 numbers is asked of the list as it is lent: the clause is shorter than a type.
ghost use Rattle.std.specs.Prelude.{◌≡◌, true, false, ◌++◌, ℕ, ◌+◌, ◌-◌, ◌<◌, ◌≤◌, length, get_or, take, drop, MatchResult};
ghost use Rattle.rules.specs.Shuffle.{countdown};
ghost use Rattle.rules.specs.Reservoir.{countup};
ghost use Rattle.rules.specs.Order.{is_order, rolls_into};
ghost use Rattle.answers.specs.declared.refusal.Refusal.TheVariants.{Order};
ghost use Rattle.answers.specs.Results.{answer_of};
ghost use Rattle.orders.specs.Order.{seen_order};

use answers::limits::MAX_RECORDS;
use answers::refusal::Refusal;
use answers::results::Used;

// Marks the numbers of an order, a list that holds each of 0, 1, .., n - 1 once; another list is refused by Order. The mark of a number
// is its place in 0, 1, .., n - 1, counted from 1; 0 where the number is not met.
#[tactic(auto, using(crate::proofs::Marking::ways_out))]
fn mark_places(order: &[u32], marks: &mut [u32]) -> Result<(), Refusal>
    requires { (length order.now ≤ 16384) × (length marks.old ≡ 16384) × ((v : ℕ) → get_or marks.old v 0 ≡ 0) }
    ensures { MatchResult result (λ marked. (is_order order.now ≡ true) × ((v : ℕ) → v < length order.now → get_or marks.new v 0 ≡ v + 1)) (λ refusal. (refusal ≡ Order) × (is_order order.now ≡ false)) }
{
    for &record in order {
        let v = record as usize;
        if v >= order.len() || marks[v] != 0 {
            return Err(Refusal::Order);
        }
        marks[v] = record + 1;
    }
    Ok(())
}

// Writes n - 1, .., 2, 1 to the front of the lent list; the rest of it stays.
fn write_countdown(n: usize, rolls: &mut [u64])
    requires { n ≤ length rolls.old + 1 }
    ensures front { take (n - 1) rolls.new ≡ countdown (n - 1) (n - 1) }
    ensures rest { drop (n - 1) rolls.new ≡ drop (n - 1) rolls.old }
{
    // by index: the number is told by its place
    for i in 1..n {
        rolls[i - 1] = (n - i) as u64;
    }
}

// Writes the rolls behind an order to the front of the lent list; the rest of it stays.
//
// 0, 1, .., n - 1 is shuffled into the order, and each roll is looked up: the mark of a record is its place in the list as it stands,
// counted from 1. With m records still to place, those at places m - 1, .., 1 stand in the lent list, behind the rolls written so far.
// The record at place 0 is never read, and is kept nowhere.
#[tactic(auto, using(crate::proofs::Inverse::looked))]
fn write_behind(order: &[u32], marks: &mut [u32], rolls: &mut [u64])
    requires order_and_room { (length order.now ≤ 16384) × (length marks.old ≡ 16384) × (length order.now ≤ length rolls.old + 1) × (is_order order.now ≡ true) }
    requires marked { (v : ℕ) → v < length order.now → get_or marks.old v 0 ≡ v + 1 }
    requires counted_down { take (length order.now - 1) rolls.old ≡ countdown (length order.now - 1) (length order.now - 1) }
    ensures { rolls.new ≡ rolls_into (length order.now) (countup (length order.now) 0) order.now ++ drop (length order.now - 1) rolls.old }
{
    let n = order.len();
    for place in (1..n).rev() {
        let r = marks[order[place] as usize] - 1;
        let last = rolls[n - 1 - place];
        if r > 0 {
            rolls[n - 1 - r as usize] = last;
        }
        marks[last as usize] = r + 1;
        rolls[n - 1 - place] = r as u64;
    }
}

// The rolls that shuffle 0, 1, .., n - 1 into an order, in shuffle order, n - 1 of them (none for n = 0), into the front of the lent
// list; the rest of it stays.
//
// An order is a list that holds each of 0, 1, .., n - 1 once. These rolls, and no others in range, give it. Refusals, the lowest that
// applies: 2 above 16,384 records, 6 the lent list shorter than n - 1, 8 the list is not an order; the lent list is then exactly what
// it was. No word is used; next and rejected are 0. Three passes over n places and a table of 16,384 marks, with no search. Behind 1, 2,
// 0 the rolls are 0, 0. While the rules stand the same input has the same answer.
pub fn rolls_behind(order: &[u32], rolls: &mut [u64]) -> Result<Used, Refusal>
    ensures answer { answer_of 0 result ≡ (seen_order order.now rolls.old).0 }
    ensures rolls { rolls.new ≡ (seen_order order.now rolls.old).1 }
{
    if MAX_RECORDS < order.len() {
        return Err(Refusal::Count);
    }
    if rolls.len() + 1 < order.len() {
        return Err(Refusal::Room);
    }
    // fixed memory: the library has no heap
    let mut marks = [0u32; MAX_RECORDS];
    mark_places(order, &mut marks)?;
    write_countdown(order.len(), rolls);
    write_behind(order, &mut marks, rolls);
    // no word: the zeros stand here so that one conversion to C serves this, a list, a shuffle and a sample
    Ok(Used {
        next: 0,
        rejected: 0,
    })
}
