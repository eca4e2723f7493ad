// What the caller of an operation gets from C, by value: numbers and zeros, since C has neither a Result nor an enum with values. `no` is 0
// where nothing is refused, else the number of the refusal.
ghost use Rattle.std.specs.Prelude.{◌≡◌};
ghost use Rattle.answers.specs.Results.{answer_of, batch_answer_of, behind_of};

use super::refusal::Refusal;
use super::results::{Rolled, Used, WordRun};

// A list of bounds, a shuffle, a sample, the rolls behind an order: the place after the last word used, the count of rejected
// words, and at number 10 the batch that got no word.
#[repr(C)]
#[derive(Default, Drop)]
pub struct Answer {
    pub no: u64,
    pub next: usize,
    pub rejected: usize,
    pub batch: usize,
}

// One batch: sixteen rolls with their count, places past the count 0.
#[repr(C)]
#[derive(Default, Drop)]
pub struct Batch {
    pub no: u64,
    pub next: usize,
    pub rejected: usize,
    pub count: usize,
    pub rolls: [u64; 16],
}

// The words behind rolls: the first and the last of their run.
#[repr(C)]
#[derive(Default, Drop)]
pub struct Behind {
    pub no: u64,
    pub next: usize,
    pub rejected: usize,
    pub first: u64,
    pub last: u64,
}

impl Answer {
    // A refusal has its number, the start place as given, the batch at number 10, and zeros elsewhere.
    pub fn of(start: usize, outcome: Result<Used, Refusal>) -> Answer
        ensures { result ≡ answer_of start outcome }
    {
        match outcome {
            Ok(used) => Answer {
                next: used.next,
                rejected: used.rejected,
                ..Answer::default()
            },
            Err(refusal) => Answer {
                no: refusal.number(),
                next: start,
                batch: refusal.batch(),
                ..Answer::default()
            },
        }
    }
}

impl Batch {
    pub fn of(start: usize, outcome: Result<Rolled, Refusal>) -> Batch
        ensures { result ≡ batch_answer_of start outcome }
    {
        match outcome {
            Ok(rolled) => {
                let rolls = rolled.rolls;
                Batch {
                    next: rolled.used.next,
                    rejected: rolled.used.rejected,
                    count: rolled.count,
                    rolls,
                    ..Batch::default()
                }
            }
            Err(refusal) => Batch {
                no: refusal.number(),
                next: start,
                ..Batch::default()
            },
        }
    }
}

// No word is used, and no start is given.
impl From<Result<WordRun, Refusal>> for Behind {
    ghost from_gives = { λ outcome answer. answer ≡ behind_of outcome };

    fn from(outcome: Result<WordRun, Refusal>) -> Behind {
        match outcome {
            Ok(run) => Behind {
                first: run.first,
                last: run.last,
                ..Behind::default()
            },
            Err(refusal) => Behind {
                no: refusal.number(),
                ..Behind::default()
            },
        }
    }
}
