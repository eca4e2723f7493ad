// What became of a place of the register in a draw, read off the rolls of the places from k on; and where the final shuffle puts what
// a slot holds.
ghost use Rattle.std.specs.Prelude.{◌≡◌, true, ◌+◌, ◌<◌, ◌≤◌, length};
ghost use Rattle.rules.specs.Rolls.{in_range};
ghost use Rattle.rules.specs.Shuffle.{shuffle_bounds};
ghost use Rattle.reasons.specs.Fate.{first_step, fate_of_place, final_slot_of};

// The one reason why a place was drawn or not. Slots, places and steps are counted from 0; place i, from k on, has step i - k.
#[derive(Clone, Copy, Debug, PartialEq, Eq)]
pub enum Fate {
    // it was among the first k and stayed
    Stayed {
        slot: usize,
    },
    // it was rolled into a slot at its step and stayed
    RolledIn {
        slot: usize,
    },
    // it held a slot until a later record, the first to do so, took that slot
    Taken {
        slot: usize,
        by_place: usize,
        by_step: usize,
    },
    // its own roll was k or more
    PassedOver {
        roll: u64,
    },
}

// The first step, from a step on, whose roll is the slot.
fn first_roll(rolls: &[u64], from: usize, slot: u64) -> Option<usize>
    requires { from ≤ length rolls.now }
    ensures { result ≡ first_step slot rolls.now from }
{
    let later = rolls[from..].iter().position(|&roll| roll == slot)?;
    Some(from + later)
}

// What became of a place in a draw of k, by the rolls of the reservoir.
pub fn fate_of(rolls: &[u64], k: usize, place: usize) -> Fate
    requires { (place < k + length rolls.now) × (k + length rolls.now ≤ 16384) }
    ensures { result ≡ fate_of_place k rolls.now place }
{
    if place < k {
        return match first_roll(rolls, 0, place as u64) {
            Some(step) => Fate::Taken {
                slot: place,
                by_place: k + step,
                by_step: step,
            },
            None => Fate::Stayed { slot: place },
        };
    }
    let roll = rolls[place - k];
    if k as u64 <= roll {
        return Fate::PassedOver { roll };
    }
    let slot = roll as usize;
    match first_roll(rolls, place - k + 1, roll) {
        Some(step) => Fate::Taken {
            slot,
            by_place: k + step,
            by_step: step,
        },
        None => Fate::RolledIn { slot },
    }
}

// Where the final shuffle of k slots, by these rolls, puts what a slot holds.
pub fn final_slot(rolls: &[u64], k: usize, slot: usize) -> usize
    requires { (slot < k) × (in_range (shuffle_bounds k) rolls.now ≡ true) }
    ensures { result ≡ final_slot_of k rolls.now slot }
{
    let mut at = slot;
    for (i, &roll) in rolls.iter().enumerate() {
        let roll = roll as usize;
        let last = k - 1 - i;
        if at == roll {
            at = last;
        } else if at == last {
            at = roll;
        }
    }
    at
}
