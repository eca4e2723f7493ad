// The batches of a shuffle. The dry run over them knows before any record is exchanged whether the words suffice. Their rolls are written
// to a list for a reader of rolls, where the shuffle itself exchanges records as it unfolds a word.
ghost use Rattle.std.specs.Prelude.{◌≡◌, ◌++◌, ◌-◌, ◌≤◌, ◌<◌, ◌^◌, length, drop, MatchResult};
ghost use Rattle.rules.specs.Rolls.{product, rolls};
ghost use Rattle.rules.specs.Width.{size64};
ghost use Rattle.rules.specs.Shuffle.{countdown, shuffle_plan};
ghost use Rattle.answers.specs.declared.refusal.Refusal.TheVariants.{Count};
ghost use Rattle.rules.proofs.ShufflePlans.{plan_end, sizes64};
ghost use Rattle.std.proofs.Common.{arith};

use answers::limits::MAX_RECORDS;
use answers::refusal::Refusal;
use arithmetic::bounds::Product;
use rolls::plan::{Cut, Plan};
use rolls::unfold::Unfolding;

// The size of the next batch with m records still to place: m from 2,049 to 16,384, 4; from 513 to 2,048, 5; from 7 to 512, 6; from
// 2 to 6, m - 1.
#[tactic(auto, unfolding(rules::specs::Width::size64))]
pub fn batch_size(m: usize) -> usize
    requires { 0 < m }
    ensures { result ≡ size64 m }
{
    match m {
        ..=6 => m - 1,
        ..=512 => 6,
        ..=2048 => 5,
        _ => 4,
    }
}

// The bounds of one batch: m, m - 1, .., s of them.
#[derive(Clone, Copy)]
pub struct Falling {
    pub m: usize,
    pub s: usize,
    ghost within: { s ≤ m },
}

impl Falling {
    // Their product.
    #[tactic(auto, using(crate::proofs::Placing::grow_turn, crate::proofs::Placing::grow_fits, crate::proofs::Placing::grow_done))]
    pub fn product(self) -> u64
        requires { product (countdown self.s self.m) < 2 ^ 64 }
        ensures { result ≡ product (countdown self.s self.m) }
    {
        let mut p: u64 = 1;
        for i in 0..self.s {
            p *= (self.m - i) as u64;
        }
        p
    }

    // Writes the word's rolls with these bounds to the front of the lent list; the rest of it stays.
    #[tactic(auto, using(crate::proofs::Placing::write_turn, crate::proofs::Placing::write_done))]
    fn write(self, word: u64, out: &mut [u64])
        requires { self.s ≤ length out.old }
        ensures { out.new ≡ rolls 64 (countdown self.s self.m) word ++ drop self.s out.old }
    {
        let mut unfolding = Unfolding { r: word };
        for i in 0..self.s {
            let bound = (self.m - i) as u64;
            out[i] = unfolding.roll(bound);
        }
    }
}

// The bounds of a shuffle, n, n - 1, .., 2, in batches of fixed sizes; n is at most 16,384.
#[derive(Clone, Copy)]
pub struct Countdown {
    pub records: usize,
    ghost few: { records ≤ 16384 },
}

// Refused where there are more records.
impl TryFrom<usize> for Countdown {
    type Error = Refusal;

    ghost try_from_gives = { λ records outcome. MatchResult outcome (λ plan. plan.records ≡ records) (λ refusal. (refusal ≡ Count) × (16384 < records)) };

    fn try_from(records: usize) -> Result<Countdown, Refusal> {
        if MAX_RECORDS < records {
            return Err(Refusal::Count);
        }
        Ok(Countdown { records })
    }
}

impl Plan for Countdown {
    ghost batches = { λ c at. shuffle_plan size64 (c.records - at) };

    ghost bounds = { λ c. c.records - 1 };

    fn count(&self) -> usize {
        self.records.saturating_sub(1)
    }

    fn cut(&self, at: usize) -> Cut {
        let m = self.records - at;
        let batch = Falling {
            m,
            s: batch_size(m),
        };
        Cut {
            end: at + batch.s,
            product: Product {
                wrapped: batch.product(),
            },
        }
    }

    fn unfold(&self, at: usize, end: usize, word: u64, out: &mut [u64]) {
        let batch = Falling {
            m: self.records - at,
            s: end - at,
        };
        batch.write(word, out)
    }

    ghost ends = { λ c. plan_end sizes64 (c.records - (c.records - 1)) (Prim.omega arith) };
}
