// Writing a draw sheet: the six numbers, the words at 24, the records straight after.
ghost use Rattle.std.specs.Prelude.{◌≡◌, ◌+◌, ◌*◌, ◌≤◌, ltb, length};
ghost use Rattle.rules.specs.Put.{put};
ghost use Rattle.areas.specs.Area.{area};
ghost use Rattle.writer.specs.Results.{six, written_of};
ghost use Rattle.writer.specs.WriteSheet.{seen_write};

use answers::refusal::Refusal;
use areas::number::Number;
use areas::write::write_numbers;
use sheet::read::{
    HEADER, Header, K, MAX_SHEET, RECORD_COUNT, RECORDS_AT, SHEET_RECORDS, SHEET_WORDS, W,
    WORD_COUNT, WORDS_AT, check_size,
};

// Whether a sheet of so many words and records would pass 65,535 bytes. More than a sheet can hold of either is told before anything is
// multiplied, so that no product and no sum wraps.
fn too_long(words: usize, records: usize) -> bool
    ensures { result ≡ ltb 65535 (24 + 8 * words + 4 * records) }
{
    if SHEET_WORDS < words {
        return true;
    }
    if SHEET_RECORDS < records {
        return true;
    }
    MAX_SHEET < HEADER + 8 * words + 4 * records
}

// Puts the six numbers in front of the sheet.
fn write_header(sheet: &mut [u8], header: Header)
    requires { 24 ≤ length sheet.old }
    ensures { sheet.new ≡ put sheet.old 0 (area 4 (six header)) }
{
    u32::write(sheet, WORD_COUNT, header.words);
    u32::write(sheet, WORDS_AT, header.words_at);
    u32::write(sheet, RECORD_COUNT, header.records);
    u32::write(sheet, RECORDS_AT, header.records_at);
    u32::write(sheet, K, header.k);
    u32::write(sheet, W, header.w);
}

// A draw sheet, written: the six numbers, the words at 24, the records straight after; bytes past the sheet stay.
//
// The answer has the sheet's length, 24 + 8 x words + 4 x records. Whether the words suffice for the draw is not looked at. Refusals, in
// this order: 2 the sheet would pass 65,535 bytes, 3 k is 0 or above the count of records or w is above k, 6 the lent list is shorter
// than the sheet; every byte of it is then exactly what it was. Each word and each record is copied once. The words 0, 1 and the
// records 101, 205, 309 with k = 1 and w = 1 give the 52 bytes of the header 2, 24, 3, 40, 1, 1 and these words and records. While the
// rules stand the same input has the same answer.
#[tactic(auto, unfolding(crate::specs::WriteSheet::write_sheet, answers::specs::Outcome::decide))]
pub fn write_sheet(
    words: &[u64],
    records: &[u32],
    k: usize,
    w: usize,
    sheet: &mut [u8],
) -> Result<usize, Refusal>
    ensures answer { written_of result ≡ (seen_write words.now records.now k w sheet.old).0 }
    ensures sheet { sheet.new ≡ (seen_write words.now records.now k w sheet.old).1 }
{
    let m = words.len();
    let n = records.len();
    if too_long(m, n) {
        return Err(Refusal::Count);
    }
    check_size(n, k, w)?;
    let records_at = HEADER + 8 * m;
    let length = records_at + 4 * n;
    if sheet.len() < length {
        return Err(Refusal::Room);
    }
    let header = Header {
        words: m as u32,
        words_at: HEADER as u32,
        records: n as u32,
        records_at: records_at as u32,
        k: k as u32,
        w: w as u32,
    };
    write_header(sheet, header);
    write_numbers(sheet, HEADER, words);
    write_numbers(sheet, records_at, records);
    Ok(length)
}
