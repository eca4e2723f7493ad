// The words from outside, from a place on.
ghost use Rattle.std.specs.Prelude.{◌≡◌, ◌^◌, ◌≤◌, ◌<◌, length, slice_index, EachIndex, MatchResult};
ghost use Rattle.answers.specs.declared.refusal.Refusal.TheVariants.{Start};

use answers::refusal::Refusal;

#[derive(Clone, Copy)]
pub struct Words<'a> {
    pub list: &'a [u64],
    pub next: usize,
    ghost within: { next ≤ length list.now },
    ghost counted: { length list.now < 2 ^ 64 },
    ghost fits: { EachIndex list.now (λ i. slice_index list.now i < 2 ^ 64) },
}

impl<'a> Words<'a> {
    // From a start place on; refused where it is above the number of words.
    pub fn from(list: &'a [u64], start: usize) -> Result<Words<'a>, Refusal>
        ensures { MatchResult result (λ words. (words.list.now ≡ list.now) × (words.next ≡ start)) (λ refusal. (refusal ≡ Start) × (length list.now < start)) }
    {
        if list.len() < start {
            return Err(Refusal::Start);
        }
        Ok(Words { list, next: start })
    }

    // From a later place on.
    pub fn at(self, next: usize) -> Words<'a>
        requires { next ≤ length self.list.now }
        ensures list { result.list.now ≡ self.entry.list.now }
        ensures next { result.next ≡ next }
    {
        Words {
            list: self.list,
            next,
        }
    }
}
