// Why an operation gives nothing, with the number that the rules fix for each. The lowest number that applies is given.
ghost use Rattle.std.specs.Prelude.{◌≡◌};
ghost use Rattle.answers.specs.Results.{number_of, batch_of};

#[derive(Clone, Copy, Debug, PartialEq, Eq)]
pub enum Refusal {
    // the sheet is not sound
    Sheet,
    // bounds or records outside their count; a sheet to be written would pass 65,535 bytes
    Count,
    // k is 0 or above n; on a sheet, w is above k
    Sample,
    // some bound is 0
    Zero,
    // product of one batch above 2^64
    Product,
    // the lent result list is too short
    Room,
    // rolls and bounds differ in count, or a roll reaches its bound; the place asked for is not below the count of records
    Misfit,
    // the list isn't each of 0..n - 1 once
    Order,
    // start place above the number of words
    Start,
    // the list ends before this batch, counted from 0, has an accepted word
    Words { batch: usize },
}

impl Refusal {
    // The number that C gets in `no`.
    pub fn number(self) -> u64
        ensures { result ≡ number_of self }
    {
        match self {
            Refusal::Sheet => 1,
            Refusal::Count => 2,
            Refusal::Sample => 3,
            Refusal::Zero => 4,
            Refusal::Product => 5,
            Refusal::Room => 6,
            Refusal::Misfit => 7,
            Refusal::Order => 8,
            Refusal::Start => 9,
            Refusal::Words { .. } => 10,
        }
    }

    // The batch that got no word; 0 for numbers other than 10.
    pub fn batch(self) -> usize
        ensures { result ≡ batch_of self }
    {
        match self {
            Refusal::Words { batch } => batch,
            _ => 0,
        }
    }
}
