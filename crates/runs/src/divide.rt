// A number of two words divided by one word, by long division in base 2: 64 steps, whatever the numbers. By steps and not by a 128-bit
// type: the wrong programs about division (must-fail/) are wrong in these steps.
ghost use Rattle.std.specs.Prelude.{◌≡◌, ◌+◌, ◌*◌, ◌/◌, ◌%◌, ◌^◌, ◌<◌};
ghost use Rattle.rules.specs.Rolls.{up};

// What a division gives.
#[derive(Clone, Copy)]
struct Division {
    quotient: u64,
    remainder: u64,
}

// high * 2^64 + low, divided by b. The quotient fits a word since high is below b.
fn divide(high: u64, low: u64, b: u64) -> Division
    requires { high < b }
    ensures { (result.quotient ≡ (high * 2 ^ 64 + low) / b) × (result.remainder ≡ (high * 2 ^ 64 + low) % b) }
{
    let mut quotient: u64 = 0;
    let mut remainder = high;
    for left in (0..u64::BITS).rev() {
        let bit = (low >> left) % 2;
        // twice the remainder and the next bit, less b where it reaches b, with no sum that passes a word
        let short = b - remainder;
        if remainder + bit < short {
            quotient = quotient * 2;
            remainder = remainder * 2 + bit;
        } else {
            quotient = quotient * 2 + 1;
            remainder = remainder + bit - short;
        }
    }
    Division {
        quotient,
        remainder,
    }
}

// The same, rounded up, where that is a word.
pub fn divide_up(high: u64, low: u64, b: u64) -> u64
    requires { (high < b) × (up (high * 2 ^ 64 + low) b < 2 ^ 64) }
    ensures { result ≡ up (high * 2 ^ 64 + low) b }
{
    let division = divide(high, low, b);
    if division.remainder == 0 {
        return division.quotient;
    }
    division.quotient + 1
}
