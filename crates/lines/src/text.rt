// The text that the draw-sheet program prints, written into a lent list of bytes.
ghost use Rattle.std.specs.Prelude.{◌≡◌, ◌++◌, ◌+◌, ◌*◌, ◌≤◌, ◌<◌, ◌^◌, length, drop};
ghost use Rattle.lines.specs.Text.{draw_line_of, slot_line_of, refused_line_of, first_line_of, slot_lines, output};
ghost use Rattle.sheet.specs.Results.{drawn_of};
ghost use Rattle.spelling.specs.Inner.{Room, Written};

use answers::refusal::Refusal;
use sheet::run::{Draw, run_sheet};
use spelling::page::Page;

// The slots that the program lends: no sheet has as many records.
const SLOTS: usize = 16384;

// Room for any output, 376,921 bytes: a first line of at most 89, `draw` and four numbers of at most 20 digits, and for each slot a line
// of at most 23, its number of at most 5 digits, its record of at most 10, and `early`; with the blanks and line feeds.
pub const OUTPUT: usize = 89 + 23 * SLOTS;

// Writes the line of a draw that was done: `draw`, the count of records, k, the words used, the words rejected.
#[tactic(auto, unfolding(crate::specs::Text::line))]
fn draw_line(n: u64, k: u64, used: u64, rejected: u64, page: &mut Page)
    requires { Room page.old (length (draw_line_of n k used rejected)) }
    ensures { Written page.old (draw_line_of n k used rejected) page.new }
{
    page.text(b"draw");
    page.field(n);
    page.field(k);
    page.field(used);
    page.field(rejected);
    page.text(b"\n");
}

// Writes the line of a refusal: `refused`, its number, and the batch.
#[tactic(auto, unfolding(crate::specs::Text::line))]
fn refused_line(number: u64, batch: u64, page: &mut Page)
    requires { Room page.old (length (refused_line_of number batch)) }
    ensures { Written page.old (refused_line_of number batch) page.new }
{
    page.text(b"refused");
    page.field(number);
    page.field(batch);
    page.text(b"\n");
}

// Writes the first line that tells of a draw: the draw's where nothing is refused, else the refusal's. A draw starts at 0, so that next
// is the count of words used.
#[tactic(auto, using(crate::proofs::Printing::refused_short, crate::proofs::Printing::draw_short))]
fn first_line(drawn: Result<Draw, Refusal>, page: &mut Page)
    requires { Room page.old 89 }
    ensures written { Written page.old (first_line_of (drawn_of drawn)) page.new }
    ensures short { page.new.at ≤ page.old.at + 89 }
{
    match drawn {
        Ok(Draw { used, header }) => draw_line(
            header.records as u64,
            header.k as u64,
            used.next as u64,
            used.rejected as u64,
            page,
        ),
        Err(refusal) => refused_line(refusal.number(), refusal.batch() as u64, page),
    }
}

// Writes the line of a slot, counted from 0: its number from 1, its record, and whether it is early, one of the first w, or late.
#[tactic(auto, unfolding(crate::specs::Text::line))]
fn slot_line(slot: usize, record: u32, w: u32, page: &mut Page)
    requires { (slot + 1 < 2 ^ 64) × Room page.old (length (slot_line_of w slot «record»)) }
    ensures { Written page.old (slot_line_of w slot «record») page.new }
{
    page.decimal(slot as u64 + 1);
    page.field(record as u64);
    if slot < w as usize {
        page.text(b" early\n");
    } else {
        page.text(b" late\n");
    }
}

// Writes a line for each slot.
fn write_slots(slots: &[u32], w: u32, page: &mut Page)
    requires { (length slots.now ≤ 16384) × Room page.old (23 * length slots.now) }
    ensures { Written page.old (slot_lines w 0 slots.now) page.new }
{
    for (slot, &record) in slots.iter().enumerate() {
        slot_line(slot, record, w, page);
    }
}

// Writes all that the program prints for a sheet to the front of the list, and returns how many bytes that is; the rest of it stays.
pub fn write_output(sheet: &[u8], out: &mut [u8]) -> usize
    requires { 376921 ≤ length out.old }
    ensures length { result ≡ length (output sheet.now) }
    ensures bytes { out.new ≡ output sheet.now ++ drop result out.old }
{
    // fixed memory, as in the library
    let mut slots = [0u32; SLOTS];
    let drawn = run_sheet(sheet, &mut slots);
    let mut page = Page::new(out);
    first_line(drawn, &mut page);
    if let Ok(Draw { header, .. }) = drawn {
        write_slots(&slots[..header.k as usize], header.w, &mut page);
    }
    page.place()
}
