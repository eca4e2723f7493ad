// Cutting a list of bounds into batches.
ghost use Rattle.std.specs.Prelude.{◌≡◌, ◌<◌, length};
ghost use Rattle.rules.specs.Width.{w64};
ghost use Rattle.lists.specs.Inner.{cut_at};

use answers::limits::MAX_BATCH;
use arithmetic::bounds::{Product, within};
use rolls::plan::Cut;

// 2^56: a further bound joins a batch while their product is at most this.
pub const LIMIT: u64 = 72057594037927936;

// The batch that begins at a place of the list: it takes the next bound whatever it is, and further bounds in order while the
// batch has fewer than 16 and its product with the new bound is at most 2^56.
#[tactic(auto, using(crate::proofs::Cutting::cut_filled))]
pub fn cut_at(bounds: &[u64], at: usize) -> Cut
    requires { at < length bounds.now }
    ensures { result ≡ cut_at w64 bounds.now at }
{
    let mut product = bounds[at];
    for end in at + 1..bounds.len() {
        let b = bounds[end];
        let cut = Cut {
            end,
            product: Product { wrapped: product },
        };
        if end - at >= MAX_BATCH {
            return cut;
        }
        if !within(product, b, LIMIT) {
            return cut;
        }
        product *= b;
    }
    Cut {
        end: bounds.len(),
        product: Product { wrapped: product },
    }
}
