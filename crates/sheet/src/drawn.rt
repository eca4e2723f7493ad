// What the caller of an operation on a sheet gets from C, by value.
ghost use Rattle.std.specs.Prelude.{◌≡◌};
ghost use Rattle.sheet.specs.Results.{drawn_of, read_of};

use super::read::Header;
use super::run::Draw;
use answers::refusal::Refusal;
use answers::results::Used;

// The answer of an operation on a sheet, and the six numbers of the sheet. `no` is 0 where nothing is refused, else the number of the refusal.
#[repr(C)]
#[derive(Default, Drop)]
pub struct Drawn {
    pub no: u64,
    pub next: usize,
    pub rejected: usize,
    pub batch: usize,
    pub words: u32,
    pub words_at: u32,
    pub records: u32,
    pub records_at: u32,
    pub k: u32,
    pub w: u32,
}

// Of a sheet that is run. A refusal has its number, the batch at number 10, and zeros elsewhere.
impl From<Result<Draw, Refusal>> for Drawn {
    ghost from_gives = { λ outcome answer. answer ≡ drawn_of outcome };

    fn from(outcome: Result<Draw, Refusal>) -> Drawn {
        match outcome {
            Ok(Draw { used, header }) => Drawn {
                next: used.next,
                rejected: used.rejected,
                words: header.words,
                words_at: header.words_at,
                records: header.records,
                records_at: header.records_at,
                k: header.k,
                w: header.w,
                ..Drawn::default()
            },
            Err(refusal) => Drawn {
                no: refusal.number(),
                batch: refusal.batch(),
                ..Drawn::default()
            },
        }
    }
}

// Of a sheet that is read and not run: no word is used.
impl From<Result<Header, Refusal>> for Drawn {
    ghost from_gives = { λ outcome answer. answer ≡ read_of outcome };

    fn from(outcome: Result<Header, Refusal>) -> Drawn {
        Drawn::from(outcome.map(|header| Draw {
            used: Used {
                next: 0,
                rejected: 0,
            },
            header,
        }))
    }
}
