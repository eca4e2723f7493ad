// The way back from rolls to words.
ghost use Rattle.std.specs.Prelude.{◌≡◌, ◌^◌, ◌<◌, ◌≤◌, true};
ghost use Rattle.rules.specs.Rolls.{product, in_range, value};
ghost use Rattle.rules.specs.Width.{w64};
ghost use Rattle.answers.specs.Results.{behind_of};
ghost use Rattle.arithmetic.specs.Products.{unwrap};
ghost use Rattle.runs.specs.Behind.{seen_behind};
ghost use Rattle.runs.specs.Inner.{run_behind_rolls};

use super::divide::divide_up;
use answers::refusal::Refusal;
use answers::results::WordRun;
use arithmetic::bounds::Product;
use rolls::check::check_bounds;

// Whether there is a roll for each bound, each below its bound.
fn in_range(bounds: &[u64], rolls: &[u64]) -> bool
    ensures { result ≡ in_range bounds.now rolls.now }
{
    bounds.len() == rolls.len() && rolls.iter().zip(bounds).all(|(roll, bound)| roll < bound)
}

// The rolls read as one mixed-radix number, the first roll most significant.
fn value_of(bounds: &[u64], rolls: &[u64]) -> u64
    requires { (in_range bounds.now rolls.now ≡ true) × (product bounds.now ≤ 2 ^ 64) }
    ensures { result ≡ value bounds.now rolls.now }
{
    let mut a: u64 = 0;
    for (&bound, &roll) in bounds.iter().zip(rolls) {
        a = a * bound + roll;
    }
    a
}

// The first and the last of the run of words behind a value, for a product b: from (2^64 a + t) / b rounded up, as many as 2^64 / b
// rounded down. With 2^64 words and 2^64 values each value has one word, itself.
fn run_behind(a: u64, product: Product) -> WordRun
    requires { a < unwrap 64 product.wrapped }
    ensures { result ≡ run_behind_rolls 64 (unwrap 64 product.wrapped) a }
{
    let b = product.wrapped;
    if b == 0 {
        return WordRun { first: a, last: a };
    }
    let first = divide_up(a, product.threshold(), b);
    WordRun {
        first,
        last: first + 0u64.wrapping_sub(b) / b,
    }
}

// The words behind rolls, the first and the last of their run: these, and no other words, give the rolls for these bounds, accepted.
//
// No word is used. Refusals, the lowest that applies: 2 no bound or more than 16, 4 some bound 0, 5
// product above 2^64, 7 rolls and bounds differ in count or a roll reaches its bound. The two halves of a product and a
// multiplication for each bound, and, but for a product of 2^64, a remainder, a division and 64 steps of long division. For bounds
// 2, 6 and rolls 0, 0: 1 to 1537228672809129301. While the rules stand the same input has the same answer.
pub fn words_behind(bounds: &[u64], rolls: &[u64]) -> Result<WordRun, Refusal>
    ensures { behind_of result ≡ seen_behind w64 bounds.now rolls.now }
{
    let product = check_bounds(bounds)?;
    if !in_range(bounds, rolls) {
        return Err(Refusal::Misfit);
    }
    Ok(run_behind(value_of(bounds, rolls), product))
}
