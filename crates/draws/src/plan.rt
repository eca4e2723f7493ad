// How many of how many, and the batches of such a sample.
ghost use Rattle.std.specs.Prelude.{◌≡◌, [], ◌++◌, ◌+◌, ◌-◌, ◌^◌, ◌<◌, ◌≤◌, length};
ghost use Rattle.draws.specs.Inner.{batches_from};
ghost use Rattle.rules.specs.Shuffle.{shuffle_plan};
ghost use Rattle.rules.specs.Width.{size64};
ghost use Rattle.lists.proofs.Listing.{none_behind};
ghost use Rattle.rules.proofs.ShufflePlans.{plan_end, sizes64};
ghost use Rattle.std.proofs.Common.{ap, ◌∙◌, arith};

use lists::bounds::Bounds;
use rolls::plan::{Cut, Plan};
use shuffles::plan::Countdown;

// A sample of k from n records.
#[derive(Clone, Copy)]
pub struct Size {
    pub n: usize,
    pub k: usize,
    ghost some: { 0 < k },
    ghost within: { k ≤ n },
    ghost few: { n ≤ 16384 },
}

// The bounds of a sample: those of its reservoir, cut as a list of bounds, and then those of the final shuffle. No batch has bounds of both.
#[derive(Clone, Copy)]
pub struct SamplePlan<'a> {
    pub reservoir: Bounds<'a>,
    pub shuffle: Countdown,
    ghost few: { length reservoir.list.now ≤ 16384 },
}

impl<'a> Plan for SamplePlan<'a> {
    ghost batches = { λ p. batches_from p.reservoir.list.now p.shuffle.records };

    ghost bounds = { λ p. length p.reservoir.list.now + (p.shuffle.records - 1) };

    fn count(&self) -> usize {
        self.reservoir.count() + self.shuffle.count()
    }

    fn cut(&self, at: usize) -> Cut {
        let later = self.reservoir.count();
        if at < later {
            return self.reservoir.cut(at);
        }
        let cut = self.shuffle.cut(at - later);
        Cut {
            end: later + cut.end,
            product: cut.product,
        }
    }

    fn unfold(&self, at: usize, end: usize, word: u64, out: &mut [u64]) {
        let later = self.reservoir.count();
        if at < later {
            self.reservoir.unfold(at, end, word, out);
        } else {
            self.shuffle.unfold(at - later, end - later, word, out);
        }
    }

    ghost ends = { λ p. let bs = p.reservoir.list.now in let last = length bs + (p.shuffle.records - 1) in ap (λ plan. plan ++ shuffle_plan size64 (p.shuffle.records - (last - length bs))) (none_behind (2 ^ 56) bs last (Prim.omega arith)) ∙ plan_end sizes64 (p.shuffle.records - (last - length bs)) (Prim.omega arith) };
}
