// What the caller of why gets from C, by value.
ghost use Rattle.std.specs.Prelude.{◌≡◌};
ghost use Rattle.reasons.specs.Results.{named, reason_of};

use super::fate::Fate;
use super::told::Told;
use answers::refusal::Refusal;

// The answer to why: the reason, from 1 to 4, and what it names; fields that do not apply are 0. `no` is 0 where nothing is refused, else the
// number of the refusal.
#[repr(C)]
#[derive(Default, Drop)]
pub struct Reason {
    pub no: u64,
    pub next: usize,
    pub rejected: usize,
    pub batch: usize,
    pub reason: u64,
    pub slot: usize,
    pub final_slot: usize,
    pub by_place: usize,
    pub by_step: usize,
    pub roll: u64,
}

// A refusal has its number, the batch at number 10, and zeros elsewhere.
impl From<Result<Told, Refusal>> for Reason {
    ghost from_gives = { λ outcome answer. answer ≡ reason_of outcome };

    fn from(outcome: Result<Told, Refusal>) -> Reason {
        let mut answer = Reason::default();
        match outcome {
            Ok(told) => {
                answer.next = told.used.next;
                answer.rejected = told.used.rejected;
                answer.final_slot = told.final_slot.unwrap_or(0);
                answer.tell(told.fate);
            }
            Err(refusal) => {
                answer.no = refusal.number();
                answer.batch = refusal.batch();
            }
        }
        answer
    }
}

impl Reason {
    // Puts the number of the reason, and what it names but for the final slot.
    fn tell(&mut self, fate: Fate)
        ensures { self.new ≡ named fate self.old }
    {
        match fate {
            Fate::Stayed { slot } => {
                self.reason = 1;
                self.slot = slot;
            }
            Fate::RolledIn { slot } => {
                self.reason = 2;
                self.slot = slot;
            }
            Fate::Taken {
                slot,
                by_place,
                by_step,
            } => {
                self.reason = 3;
                self.slot = slot;
                self.by_place = by_place;
                self.by_step = by_step;
            }
            Fate::PassedOver { roll } => {
                self.reason = 4;
                self.roll = roll;
            }
        }
    }
}
