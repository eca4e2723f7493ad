// A word turned into the rolls of one batch.
ghost use Rattle.std.specs.Prelude.{◌≡◌, ◌++◌, ◌≤◌, ◌*◌, ◌/◌, ◌%◌, ◌^◌, length, drop};
ghost use Rattle.rules.specs.Rolls.{rolls};

use arithmetic::wide::{high, low};

// A word that is being unfolded: r is what the rolls so far left of it.
#[derive(Clone, Copy)]
pub struct Unfolding {
    pub r: u64,
}

impl Unfolding {
    // The roll for the next bound: the bound times r is 2^64 times the roll and the new r.
    pub fn roll(&mut self, bound: u64) -> u64
        ensures roll { result ≡ bound * self.old.r / 2 ^ 64 }
        ensures rest { self.new.r ≡ bound * self.old.r % 2 ^ 64 }
    {
        let r = self.r;
        self.r = low(bound, r);
        high(bound, r)
    }
}

// Writes the word's rolls to the front of the lent list; the rest of it stays.
pub fn write_rolls(word: u64, bounds: &[u64], out: &mut [u64])
    requires { length bounds.now ≤ length out.old }
    ensures { out.new ≡ rolls 64 bounds.now word ++ drop (length bounds.now) out.old }
{
    let mut unfolding = Unfolding { r: word };
    // by index: the roll for a bound stands at the bound's place
    for (i, &b) in bounds.iter().enumerate() {
        out[i] = unfolding.roll(b);
    }
}
