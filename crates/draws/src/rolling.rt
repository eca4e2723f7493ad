// Rolling a sample: the bounds of its reservoir laid out, and their rolls and those of its final shuffle where the words suffice.
ghost use Rattle.std.specs.Prelude.{◌≡◌, ◌+◌, ◌≤◌, ◌<◌, ◌^◌, length};
ghost use Rattle.rules.specs.Reservoir.{countup};
ghost use Rattle.rules.specs.Run.{run};
ghost use Rattle.rules.specs.Width.{w64};
ghost use Rattle.answers.specs.Outcome.{left};
ghost use Rattle.answers.specs.Supplied.{supplied};
ghost use Rattle.draws.specs.Inner.{rolled_sample};
ghost use Rattle.draws.specs.Sample.{sample_plan};

use super::plan::{SamplePlan, Size};
use answers::limits::MAX_RECORDS;
use answers::refusal::Refusal;
use answers::results::Used;
use lists::bounds::Bounds;
use rolls::plan::{supply, write};
use rolls::words::Words;
use shuffles::plan::Countdown;

// Fills the list with from, from + 1, and so on.
#[tactic(auto, using(crate::proofs::Sampling::count_turn), unfolding(rules::specs::Reservoir::countup))]
fn count_up(bounds: &mut [u64], from: u64)
    requires { from + length bounds.old < 2 ^ 64 }
    ensures { bounds.new ≡ countup (length bounds.old) from }
{
    // by index: the number is told by its place
    for i in 0..bounds.len() {
        bounds[i] = from + i as u64;
    }
}

// The rolls of a sample, n - 1 of them, to the front of the lent list: one for each place from k on, then those of the final shuffle of the k
// slots, with the words that follow. Where the words do not suffice the list is what it was.
pub fn roll_sample(words: Words, size: Size, rolls: &mut [u64]) -> Result<Used, Refusal>
    requires { size.n ≤ length rolls.old + 1 }
    ensures supply { result ≡ supplied words.entry.next (run 64 (sample_plan w64 size.n size.k) words.entry.list.now words.entry.next) }
    ensures rolls { rolls.new ≡ left rolls.old (rolled_sample w64 words.entry.list.now words.entry.next size.n size.k) }
{
    let later = size.n - size.k;
    // fixed memory: the library has no heap
    let mut bounds = [0u64; MAX_RECORDS];
    count_up(&mut bounds[..later], size.k as u64 + 1);
    let plan = SamplePlan {
        reservoir: Bounds {
            list: &bounds[..later],
        },
        shuffle: Countdown { records: size.k },
    };
    let used = supply(words, &plan)?;
    write(words, &plan, rolls);
    Ok(used)
}
