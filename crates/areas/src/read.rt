// Reading numbers from bytes, low byte first.
ghost use Rattle.std.specs.Prelude.{◌≡◌, ◌++◌, ◌+◌, ◌*◌, ◌≤◌, length, drop};
ghost use Rattle.areas.specs.Area.{entries};

use crate::number::Number;

// Puts the numbers of an area, from its first byte on, to the front of the lent list; the rest of it stays.
pub fn read_numbers<N: Number>(bytes: &[u8], at: usize, count: usize, out: &mut [N])
    requires { (at + N.SIZE * count ≤ length bytes.now) × (count ≤ length out.old) }
    ensures { N.values out.new ≡ entries N.SIZE count at bytes.now ++ drop count (N.values out.old) }
{
    // by index: a number's place in the bytes is told by its place in the list
    for i in 0..count {
        out[i] = N::read(bytes, at + N::SIZE * i);
    }
}
