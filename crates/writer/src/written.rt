// What the caller of a sheet's writer gets from C, by value.
ghost use Rattle.std.specs.Prelude.{◌≡◌};
ghost use Rattle.writer.specs.Results.{written_of};

use answers::refusal::Refusal;

// The answer of a sheet's writer: how many bytes the sheet has. It uses no word: next and rejected are 0. `no` is 0 where nothing is refused,
// else the number of the refusal.
#[repr(C)]
#[derive(Default, Drop)]
pub struct Written {
    pub no: u64,
    pub next: usize,
    pub rejected: usize,
    pub length: usize,
}

// A refusal has its number, and zeros elsewhere.
impl From<Result<usize, Refusal>> for Written {
    ghost from_gives = { λ outcome answer. answer ≡ written_of outcome };

    fn from(outcome: Result<usize, Refusal>) -> Written {
        match outcome {
            Ok(length) => Written {
                length,
                ..Written::default()
            },
            Err(refusal) => Written {
                no: refusal.number(),
                ..Written::default()
            },
        }
    }
}
