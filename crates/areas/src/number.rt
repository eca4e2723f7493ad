// The numbers of a sheet: those of 4 bytes and those of 8, low byte first.
ghost use Rattle.std.specs.Prelude.{◌≡◌, List, ℕ, ◌+◌, ◌≤◌, length, map};
ghost use Rattle.std.proofs.Common.{sym};
ghost use Rattle.std.proofs.lemmas.List.{map-id};
ghost use Rattle.rules.specs.Put.{put};
ghost use Rattle.areas.specs.Area.{number, bytes_of};

// A number of SIZE bytes. Proofs speak of its value, and of the values of a list, which at the numbers here are the number and the list.
pub trait Number: Copy {
    const SIZE: usize;

    ghost SIZE: { ℕ };

    ghost value: { Self → ℕ };

    ghost values: { List Self → List ℕ };

    // The number at a place of the bytes.
    fn read(bytes: &[u8], at: usize) -> Self
        requires { at + SIZE ≤ length bytes.now }
        ensures { value result ≡ number SIZE at bytes.now };

    // Puts the number at a place of the bytes; all others stay.
    fn write(bytes: &mut [u8], at: usize, n: Self)
        requires { at + SIZE ≤ length bytes.old }
        ensures { bytes.new ≡ put bytes.old at (bytes_of SIZE (value n)) };

    // The values of a list are those of each of its numbers.
    ghost each: { (ns : List Self) → values ns ≡ map value ns };
}

impl Number for u32 {
    const SIZE: usize = 4;

    ghost SIZE = { 4 };

    ghost value = { λ n. n };

    ghost values = { λ ns. ns };

    ghost each = { λ ns. sym (map-id ns) };

    #[tactic(auto, using(crate::proofs::Reading::number_read))]
    fn read(bytes: &[u8], at: usize) -> u32 {
        let mut number = [0; Self::SIZE];
        number.copy_from_slice(&bytes[at..at + Self::SIZE]);
        u32::from_le_bytes(number)
    }

    #[tactic(auto, using(crate::proofs::Putting::number_put))]
    fn write(bytes: &mut [u8], at: usize, number: u32) {
        bytes[at..at + Self::SIZE].copy_from_slice(&number.to_le_bytes());
    }
}

// Word for word as for u32: an impl by a macro may hold no ghost member.
impl Number for u64 {
    const SIZE: usize = 8;

    ghost SIZE = { 8 };

    ghost value = { λ n. n };

    ghost values = { λ ns. ns };

    ghost each = { λ ns. sym (map-id ns) };

    #[tactic(auto, using(crate::proofs::Reading::number_read))]
    fn read(bytes: &[u8], at: usize) -> u64 {
        let mut word = [0; Self::SIZE];
        word.copy_from_slice(&bytes[at..at + Self::SIZE]);
        u64::from_le_bytes(word)
    }

    #[tactic(auto, using(crate::proofs::Putting::number_put))]
    fn write(bytes: &mut [u8], at: usize, word: u64) {
        bytes[at..at + Self::SIZE].copy_from_slice(&word.to_le_bytes());
    }
}
