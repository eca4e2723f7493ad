// Writing numbers into bytes, low byte first.
ghost use Rattle.std.specs.Prelude.{◌≡◌, ◌+◌, ◌*◌, ◌≤◌, length};
ghost use Rattle.rules.specs.Put.{put};
ghost use Rattle.areas.specs.Area.{area};

use crate::number::Number;

// Puts the numbers from a place of the bytes on, one behind the other; all other bytes stay.
pub fn write_numbers<N: Number>(bytes: &mut [u8], at: usize, numbers: &[N])
    requires { at + N.SIZE * length numbers.now ≤ length bytes.old }
    ensures { bytes.new ≡ put bytes.old at (area N.SIZE (N.values numbers.now)) }
{
    for (i, &n) in numbers.iter().enumerate() {
        N::write(bytes, at + N::SIZE * i, n);
    }
}
