// Why a record of a draw sheet was drawn or not.
ghost use Rattle.std.specs.Prelude.{◌≡◌, true, ◌-◌, ◌<◌, take, drop};
ghost use Rattle.rules.specs.Rolls.{in_range};
ghost use Rattle.rules.specs.Sample.{sample_bounds};
ghost use Rattle.rules.specs.Shuffle.{shuffle_bounds};
ghost use Rattle.rules.specs.Width.{w64};
ghost use Rattle.draws.specs.Inner.{rolled_sample};
ghost use Rattle.reasons.specs.Fate.{fate_of_place, Within, final_slot_of};
ghost use Rattle.reasons.specs.Results.{reason_of};
ghost use Rattle.reasons.specs.Why.{told, shown_why, seen_why};

use super::fate::{Fate, fate_of, final_slot};
use super::told::Told;
use answers::limits::MAX_RECORDS;
use answers::refusal::Refusal;
use answers::results::Used;
use draws::plan::Size;
use draws::rolling::roll_sample;
use rolls::words::Words;
use sheet::read::{SHEET_RECORDS, SHEET_WORDS, read_sheet};

// What became of a place, told with the words that the draw used; the final slot by the rolls of the final shuffle.
fn tell(used: Used, k: usize, rolls: &[u64], fate: Fate) -> Told
    requires { Within k fate × (in_range (shuffle_bounds k) rolls.now ≡ true) }
    ensures { reason_of (Ok result) ≡ told used.next used.rejected (final_slot_of k rolls.now) fate }
{
    let final_slot = match fate {
        Fate::Stayed { slot } | Fate::RolledIn { slot } => Some(final_slot(rolls, k, slot)),
        Fate::Taken { .. } | Fate::PassedOver { .. } => None,
    };
    Told {
        used,
        fate,
        final_slot,
    }
}

// What became of a place in the sample by these rolls, n - 1 of them.
fn tell_place(used: Used, size: Size, rolls: &[u64], place: usize) -> Told
    requires { (place < size.n) × (in_range (sample_bounds size.n size.k) rolls.now ≡ true) }
    ensures { reason_of (Ok result) ≡ told used.next used.rejected (final_slot_of size.k (drop (size.n - size.k) rolls.now)) (fate_of_place size.k (take (size.n - size.k) rolls.now) place) }
{
    let later = size.n - size.k;
    let fate = fate_of(&rolls[..later], size.k, place);
    tell(used, size.k, &rolls[later..], fate)
}

// What became of a place in the sample with the words from start 0.
fn explain(words: &[u64], size: Size, place: usize) -> Result<Told, Refusal>
    requires { place < size.n }
    ensures { reason_of result ≡ shown_why size.n size.k place (rolled_sample w64 words.now 0 size.n size.k) }
{
    let from = Words {
        list: words,
        next: 0,
    };
    let count = size.n - 1;
    // fixed memory: the library has no heap
    let mut rolls = [0u64; MAX_RECORDS];
    let used = roll_sample(from, size, &mut rolls[..count])?;
    Ok(tell_place(used, size, &rolls[..count], place))
}

// Why the record at a place of a sheet, counted from 0, was drawn or not: what became of that place in the sheet's own draw.
//
// Stayed: it was among the first k and stayed, with its slot. RolledIn: it was rolled into a slot at its step and stayed, with that
// slot. Both with the final slot too: where it stands once the slots are shuffled. Taken: it held a slot until a later record took that
// slot, with the slot and the first such record's place and step; place i has step i - k. PassedOver: its own roll was k or more, with the
// roll. To C these are the reasons 1 to 4. Slots but the final one are those before the shuffle. Refusals, the lowest that applies: 1 the sheet is not sound, 3 k is 0 or above
// the count of records or w is above k, 7 the place is not below that count, 10 the words end before some batch of the draw has one, also
// where only the final shuffle lacks them. The words used are those of the draw. The sheet is read once, the words are run through twice,
// and the rolls are looked through once. The 52 bytes of the header 2, 24, 3, 40, 1, 1, the words 0, 1 and the records 101, 205, 309 give
// Taken for place 0: slot 0 was taken by place 1, at step 0. While the rules stand the same input has the same answer.
pub fn why(sheet: &[u8], place: usize) -> Result<Told, Refusal>
    ensures { reason_of result ≡ seen_why w64 sheet.now place }
{
    // fixed memory, as where a sheet is run
    let mut words = [0u64; SHEET_WORDS];
    let mut records = [0u32; SHEET_RECORDS];
    let header = read_sheet(sheet, &mut words, &mut records)?;
    let n = header.records as usize;
    if n <= place {
        return Err(Refusal::Misfit);
    }
    let size = Size {
        n,
        k: header.k as usize,
    };
    explain(&words[..header.words as usize], size, place)
}
