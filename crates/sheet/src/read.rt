// Reading a draw sheet: whether it is sound, its six numbers, its words and its records.
ghost use Rattle.std.specs.Prelude.{◌≡◌, true, false, ◌≤◌, min, max, ltb, length, MatchResult};
ghost use Rattle.answers.specs.declared.refusal.Refusal.TheVariants.{Sample};
ghost use Rattle.sheet.specs.Sheet.{is_sound_sheet, is_wrong_size};
ghost use Rattle.sheet.specs.ReadSheet.{seen_read};
ghost use Rattle.sheet.specs.Results.{header_of, read_of};

use answers::refusal::Refusal;
use areas::number::Number;
use areas::read::read_numbers;

// The places of the six numbers, each of 4 bytes.
pub const WORD_COUNT: usize = 0;

pub const WORDS_AT: usize = 4;

pub const RECORD_COUNT: usize = 8;

pub const RECORDS_AT: usize = 12;

pub const K: usize = 16;

pub const W: usize = 20;

// The bytes of the six numbers: the least length of a sheet, and the least offset of an area.
pub const HEADER: usize = 24;

// The most bytes of a sheet.
pub const MAX_SHEET: usize = 65535;

// The most words of a sheet, (65,535 - 24) / 8, and the most records, (65,535 - 24) / 4.
pub const SHEET_WORDS: usize = 8188;

pub const SHEET_RECORDS: usize = 16377;

// The six numbers of a sheet: how many words and records it has and where they lie, and k and w.
#[derive(Clone, Copy, Debug, PartialEq, Eq)]
pub struct Header {
    pub words: u32,
    pub words_at: u32,
    pub records: u32,
    pub records_at: u32,
    pub k: u32,
    pub w: u32,
}

// Whether two areas share a byte: the later start is before the earlier end. An empty area shares none, wherever it lies.
fn share_byte(from: usize, to: usize, start: usize, end: usize) -> bool
    ensures { result ≡ ltb (max from start) (min to end) }
{
    let later = from.max(start);
    let earlier = to.min(end);
    later < earlier
}

// Whether the sheet is sound: its length is allowed, each offset is at least 24, each area ends within the sheet, and the areas
// share no byte. The sums are of 64 bits, which hold 8 * count for every count.
fn is_sound(sheet: &[u8]) -> bool
    ensures { result ≡ is_sound_sheet sheet.now }
{
    let length = sheet.len();
    if length < HEADER {
        return false;
    }
    if MAX_SHEET < length {
        return false;
    }
    let words_at = u32::read(sheet, WORDS_AT) as usize;
    let words_end = words_at + 8 * u32::read(sheet, WORD_COUNT) as usize;
    let records_at = u32::read(sheet, RECORDS_AT) as usize;
    let records_end = records_at + 4 * u32::read(sheet, RECORD_COUNT) as usize;
    if words_at < HEADER {
        return false;
    }
    if records_at < HEADER {
        return false;
    }
    if length < words_end {
        return false;
    }
    if length < records_end {
        return false;
    }
    !share_byte(words_at, words_end, records_at, records_end)
}

// Refused by number 3 where k is 0 or above n, the count of records, or w is above k.
pub fn check_size(n: usize, k: usize, w: usize) -> Result<(), Refusal>
    ensures { MatchResult result (λ fits. is_wrong_size n k w ≡ false) (λ refusal. (refusal ≡ Sample) × (is_wrong_size n k w ≡ true)) }
{
    if k < 1 || n < k || k < w {
        return Err(Refusal::Sample);
    }
    Ok(())
}

// The six numbers of a sheet.
fn read_header(sheet: &[u8]) -> Header
    requires { 24 ≤ length sheet.now }
    ensures { result ≡ header_of sheet.now }
{
    Header {
        words: u32::read(sheet, WORD_COUNT),
        words_at: u32::read(sheet, WORDS_AT),
        records: u32::read(sheet, RECORD_COUNT),
        records_at: u32::read(sheet, RECORDS_AT),
        k: u32::read(sheet, K),
        w: u32::read(sheet, W),
    }
}

// A draw sheet, read: its words to the front of the one lent list, its records to the front of the other; the rest of each stays.
//
// The six numbers say where the words and the records lie and how many there are, and give k and w; they come back. Whether the words
// suffice for the draw is not looked at. Refusals, the lowest that applies: 1 the sheet is not sound, 3 k is 0 or above the count of
// records or w is above k, 6 one of the lists is shorter than what is read into it; both lists are then exactly what they were. Each word and each record is copied once. The 52 bytes of the header 2, 24, 3, 40, 1, 1, the words 0, 1 and the
// records 101, 205, 309 give these numbers, words and records back. While the rules stand the same input has the same answer.
#[tactic(auto, unfolding(answers::specs::Outcome::decide))]
pub fn read_sheet(sheet: &[u8], words: &mut [u64], records: &mut [u32]) -> Result<Header, Refusal>
    ensures answer { read_of result ≡ (seen_read sheet.now words.old records.old).0 }
    ensures words { words.new ≡ (seen_read sheet.now words.old records.old).1.0 }
    ensures records { records.new ≡ (seen_read sheet.now words.old records.old).1.1 }
{
    if !is_sound(sheet) {
        return Err(Refusal::Sheet);
    }
    let header = read_header(sheet);
    let m = header.words as usize;
    let n = header.records as usize;
    check_size(n, header.k as usize, header.w as usize)?;
    if words.len() < m {
        return Err(Refusal::Room);
    }
    if records.len() < n {
        return Err(Refusal::Room);
    }
    read_numbers(sheet, header.words_at as usize, m, words);
    read_numbers(sheet, header.records_at as usize, n, records);
    Ok(header)
}
