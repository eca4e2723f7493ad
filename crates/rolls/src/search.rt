// The search for a batch's word: words are taken in list order until one is accepted or the list ends.
ghost use Rattle.std.specs.Prelude.{◌≡◌, drop};
ghost use Rattle.rules.specs.Run.{find};
ghost use Rattle.arithmetic.specs.Products.{unwrap};
ghost use Rattle.rolls.specs.Inner.{passes, searched};

use super::words::Words;
use arithmetic::bounds::Product;
use arithmetic::wide::low;

// The word that a batch takes, its place, and how many words before it were rejected.
#[derive(Clone, Copy, Debug, PartialEq, Eq)]
pub struct Hit {
    pub word: u64,
    pub place: usize,
    pub rejected: usize,
}

// The first of the words that the batch with this product accepts; None where the list ends. The last r of a word is the low half of
// the product times the word, so that no word is unfolded here.
#[tactic(auto, using(crate::proofs::Searching::searched_here))]
pub fn find_word(words: Words, product: Product) -> Option<Hit>
    ensures { result ≡ searched words.entry.next (find (passes 64 (unwrap 64 product.wrapped)) (drop words.entry.next words.entry.list.now) words.entry.next) }
{
    let list = words.list;
    let b = product.wrapped;
    let t = product.threshold();
    let mut at = words.next;
    let mut rejected: usize = 0;
    // left by break at the accepted word, as document 01 fixes the search
    let found = loop {
        if at == list.len() {
            break None;
        }
        let word = list[at];
        if t <= low(b, word) {
            break Some(Hit {
                word,
                place: at,
                rejected,
            });
        }
        at += 1;
        rejected += 1;
    };
    found
}
