// Running a draw sheet: reading it, and then the sample that it asks for.
ghost use Rattle.std.specs.Prelude.{◌≡◌};
ghost use Rattle.rules.specs.Width.{w64};
ghost use Rattle.sheet.specs.Results.{drawn_of};
ghost use Rattle.sheet.specs.RunSheet.{seen_sheet};

use super::read::{Header, SHEET_RECORDS, SHEET_WORDS, read_sheet};
use answers::refusal::Refusal;
use answers::results::Used;
use draws::sample::sample_records;

// A draw that was done: the words that it used, and the six numbers of its sheet.
#[derive(Clone, Copy, Debug, PartialEq, Eq)]
pub struct Draw {
    pub used: Used,
    pub header: Header,
}

// A draw sheet, run: the sample that it asks for, into the first k of the lent slots; slots past k stay.
//
// The six numbers say where the words and the records lie and how many there are, and give k and w. The draw is the sample of the
// records from start 0, and the six numbers come back with it: the first w slots are the early reviews, the others late. Refusals, the
// lowest that applies: 1 the sheet is not sound, 3 k is 0 or above the count of records or w is above k, 6 fewer than k slots, 10 the
// words end before some batch has one; the slots are then exactly what they were. Each word and each
// record of the sheet is copied once, into local arrays, and then sampled. The 52 bytes of the header 2, 24, 3, 40, 1, 1, the words
// 0, 1 and the records 101, 205, 309 give 309: next is 2 and one word is rejected. While the rules stand the same input has the same
// answer.
pub fn run_sheet(sheet: &[u8], slots: &mut [u32]) -> Result<Draw, Refusal>
    ensures answer { drawn_of result ≡ (seen_sheet w64 sheet.now slots.old).0 }
    ensures slots { slots.new ≡ (seen_sheet w64 sheet.now slots.old).1 }
{
    // fixed memory: the library has no heap. Two arrays, and not a sheet that owns both: passed on by value it takes two and a half times the stack
    let mut words = [0u64; SHEET_WORDS];
    let mut records = [0u32; SHEET_RECORDS];
    let header = read_sheet(sheet, &mut words, &mut records)?;
    let m = header.words as usize;
    let n = header.records as usize;
    let used = sample_records(&words[..m], 0, &records[..n], header.k as usize, slots)?;
    Ok(Draw { used, header })
}
