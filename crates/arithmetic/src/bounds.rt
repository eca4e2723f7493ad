// What a batch's bounds come to: whether one is 0, their product, whether it passes a limit, and the threshold t. How large a
// product is, is told by the two halves of the wide product.
ghost use Rattle.std.specs.Prelude.{◌≡◌, ◌*◌, ◌<◌, false, nat_le};
ghost use Rattle.rules.specs.Rolls.{product, threshold, holds_zero};
ghost use Rattle.arithmetic.specs.Products.{against, unwrap};

use super::wide::{high, low};

// A product from 1 to 2^64, as the word that it wraps to: 0 stands for 2^64, which no word holds.
#[derive(Clone, Copy, Debug, PartialEq, Eq)]
pub struct Product {
    pub wrapped: u64,
}

// Whether some bound is 0.
pub fn has_zero(bounds: &[u64]) -> bool
    ensures { result ≡ holds_zero bounds.now }
{
    // not by contains: with it a refused list of 4,096 bounds took from 1.5 to 1.9 times as long
    bounds.iter().any(|&b| b == 0)
}

// Whether p * b is at most the limit: its high half is 0, and its low half is at most the limit.
pub fn within(p: u64, b: u64, limit: u64) -> bool
    ensures { result ≡ nat_le (p * b) limit }
{
    high(p, b) == 0 && low(p, b) <= limit
}

// p * b, where it is at most 2^64: its high half is 0, or it is 1 with low half 0, which is 2^64 itself.
#[tactic(auto, using(crate::proofs::Limits::half_fits, crate::proofs::Limits::whole_fits, crate::proofs::Limits::halves_large))]
fn product_of_two(p: u64, b: u64) -> Option<Product>
    ensures { result ≡ against (p * b) }
{
    let high = high(p, b);
    let low = low(p, b);
    if high == 0 {
        return Some(Product { wrapped: low });
    }
    if high == 1 && low == 0 {
        return Some(Product { wrapped: 0 });
    }
    None
}

impl Product {
    // The product with one bound more, where it is at most 2^64.
    fn times(self, b: u64) -> Option<Product>
        requires { 0 < b }
        ensures { result ≡ against (unwrap 64 self.wrapped * b) }
    {
        if self.wrapped != 0 {
            return product_of_two(self.wrapped, b);
        }
        if b == 1 {
            return Some(self);
        }
        None
    }

    // t, the remainder of 2^64 by the product: zero less b, taken with wrap at 64 bits, mod b. For 2^64 it is 0, and nothing is divided.
    pub fn threshold(self) -> u64
        ensures { result ≡ threshold 64 (unwrap 64 self.wrapped) }
    {
        let b = self.wrapped;
        if b == 0 {
            return 0;
        }
        // the subtraction that document 01 names
        0u64.wrapping_sub(b) % b
    }
}

// The product of the bounds, where it is at most 2^64.
pub fn product_of(bounds: &[u64]) -> Option<Product>
    requires { holds_zero bounds.now ≡ false }
    ensures { result ≡ against (product bounds.now) }
{
    let mut product = Product { wrapped: 1 };
    for &b in bounds {
        product = product.times(b)?;
    }
    Some(product)
}
