// The C face: each public operation under its C name. A list crosses as a pointer and a count, an answer by value.
// include/hildrasp.h declares these functions, and rust/ wraps them.
//
// A refusal crosses by its number, and what is not refused by its values (answers::answer and so on). Each contract has two parts: what the
// caller sees is what the definitions say (seen_batch and so on); and that meets the demands of its operation (promises/specs), for every call,
// with nothing left to be checked of the lists.
#![tactic(auto)]

ghost use Rattle.std.specs.Prelude.{◌≡◌};
ghost use Rattle.rules.specs.Width.{w64};
ghost use Rattle.rolls.specs.Batch.{seen_batch};
ghost use Rattle.lists.specs.List.{seen_list};
ghost use Rattle.shuffles.specs.Shuffle.{seen_shuffle};
ghost use Rattle.draws.specs.Sample.{seen_sample};
ghost use Rattle.runs.specs.Behind.{seen_behind};
ghost use Rattle.orders.specs.Order.{seen_order};
ghost use Rattle.sheet.specs.ReadSheet.{seen_read};
ghost use Rattle.sheet.specs.RunSheet.{seen_sheet};
ghost use Rattle.writer.specs.WriteSheet.{seen_write};
ghost use Rattle.reasons.specs.Why.{seen_why};
ghost use Rattle.promises.specs.Batch as batch;
ghost use Rattle.promises.specs.List as list;
ghost use Rattle.promises.specs.Shuffle as shuffle;
ghost use Rattle.promises.specs.Sample as sample;
ghost use Rattle.promises.specs.Behind as behind;
ghost use Rattle.promises.specs.Order as order_behind;
ghost use Rattle.promises.specs.Sheet as sheet_run;
ghost use Rattle.promises.specs.Read as sheet_read;
ghost use Rattle.promises.specs.Write as sheet_written;
ghost use Rattle.promises.specs.Why as reason;

use answers::answer::{Answer, Batch, Behind};
use reasons::reason::Reason;
use sheet::drawn::Drawn;
use writer::written::Written;

#[unsafe(no_mangle)]
pub extern "C" fn hildrasp_roll_batch(words: &[u64], start: usize, bounds: &[u64]) -> Batch
    ensures answer { result ≡ seen_batch w64 words.now start bounds.now }
    ensures demands { batch.Refuses w64 words.now start bounds.now result × batch.Gives w64 words.now start bounds.now result }
{
    Batch::of(start, rolls::batch::roll_batch(words, start, bounds))
}

#[unsafe(no_mangle)]
pub extern "C" fn hildrasp_roll_list(
    words: &[u64],
    start: usize,
    bounds: &[u64],
    rolls: &mut [u64],
) -> Answer
    ensures answer { result ≡ (seen_list w64 words.now start bounds.now rolls.old).0 }
    ensures rolls { rolls.new ≡ (seen_list w64 words.now start bounds.now rolls.old).1 }
    ensures demands { list.Refuses w64 words.now start bounds.now rolls.old (result, rolls.new) × list.Gives w64 words.now start bounds.now rolls.old (result, rolls.new) }
{
    Answer::of(start, lists::list::roll_list(words, start, bounds, rolls))
}

#[unsafe(no_mangle)]
pub extern "C" fn hildrasp_shuffle(words: &[u64], start: usize, records: &mut [u32]) -> Answer
    ensures answer { result ≡ (seen_shuffle w64 words.now start records.old).0 }
    ensures records { records.new ≡ (seen_shuffle w64 words.now start records.old).1 }
    ensures demands { shuffle.Refuses w64 words.now start records.old (result, records.new) × shuffle.Gives w64 words.now start records.old (result, records.new) }
{
    Answer::of(
        start,
        shuffles::shuffle::shuffle_records(words, start, records),
    )
}

#[unsafe(no_mangle)]
pub extern "C" fn hildrasp_sample(
    words: &[u64],
    start: usize,
    records: &[u32],
    k: usize,
    slots: &mut [u32],
) -> Answer
    ensures answer { result ≡ (seen_sample w64 words.now start records.now k slots.old).0 }
    ensures slots { slots.new ≡ (seen_sample w64 words.now start records.now k slots.old).1 }
    ensures demands { sample.Refuses w64 words.now start records.now k slots.old (result, slots.new) × sample.Gives w64 words.now start records.now k slots.old (result, slots.new) }
{
    Answer::of(
        start,
        draws::sample::sample_records(words, start, records, k, slots),
    )
}

#[unsafe(no_mangle)]
pub extern "C" fn hildrasp_words_behind(bounds: &[u64], rolls: &[u64]) -> Behind
    ensures answer { result ≡ seen_behind w64 bounds.now rolls.now }
    ensures demands { behind.Refuses w64 bounds.now rolls.now result × behind.Gives w64 bounds.now rolls.now result }
{
    Behind::from(runs::behind::words_behind(bounds, rolls))
}

#[unsafe(no_mangle)]
pub extern "C" fn hildrasp_rolls_behind(order: &[u32], rolls: &mut [u64]) -> Answer
    ensures answer { result ≡ (seen_order order.now rolls.old).0 }
    ensures rolls { rolls.new ≡ (seen_order order.now rolls.old).1 }
    ensures demands { order_behind.Refuses order.now rolls.old (result, rolls.new) × order_behind.Gives order.now rolls.old (result, rolls.new) }
{
    Answer::of(0, orders::order::rolls_behind(order, rolls))
}

#[unsafe(no_mangle)]
pub extern "C" fn hildrasp_run_sheet(sheet: &[u8], slots: &mut [u32]) -> Drawn
    ensures answer { result ≡ (seen_sheet w64 sheet.now slots.old).0 }
    ensures slots { slots.new ≡ (seen_sheet w64 sheet.now slots.old).1 }
    ensures demands { sheet_run.Refuses w64 sheet.now slots.old (result, slots.new) × sheet_run.Gives w64 sheet.now slots.old (result, slots.new) }
{
    Drawn::from(sheet::run::run_sheet(sheet, slots))
}

#[unsafe(no_mangle)]
pub extern "C" fn hildrasp_write_sheet(
    words: &[u64],
    records: &[u32],
    k: usize,
    w: usize,
    sheet: &mut [u8],
) -> Written
    ensures answer { result ≡ (seen_write words.now records.now k w sheet.old).0 }
    ensures sheet { sheet.new ≡ (seen_write words.now records.now k w sheet.old).1 }
    ensures demands { sheet_written.Refuses words.now records.now k w sheet.old (result, sheet.new) × sheet_written.Gives words.now records.now k w sheet.old (result, sheet.new) }
{
    Written::from(writer::write::write_sheet(words, records, k, w, sheet))
}

#[unsafe(no_mangle)]
pub extern "C" fn hildrasp_read_sheet(sheet: &[u8], words: &mut [u64], records: &mut [u32]) -> Drawn
    ensures answer { result ≡ (seen_read sheet.now words.old records.old).0 }
    ensures words { words.new ≡ (seen_read sheet.now words.old records.old).1.0 }
    ensures records { records.new ≡ (seen_read sheet.now words.old records.old).1.1 }
    ensures demands { sheet_read.Refuses sheet.now words.old records.old (result, (words.new, records.new)) × sheet_read.Gives sheet.now words.old records.old (result, (words.new, records.new)) }
{
    Drawn::from(sheet::read::read_sheet(sheet, words, records))
}

#[unsafe(no_mangle)]
pub extern "C" fn hildrasp_why(sheet: &[u8], place: usize) -> Reason
    ensures answer { result ≡ seen_why w64 sheet.now place }
    ensures demands { reason.Refuses w64 sheet.now place result × reason.Gives w64 sheet.now place result }
{
    Reason::from(reasons::why::why(sheet, place))
}
