// The product of two words, which has 128 bits, as its high and its low half: rolls are made of it, and it tells whether a product
// of bounds is too large. Each half is made of products of 32-bit halves, which fit a word; two functions, each of which a compiler
// turns into one multiplication. By halves and not by a 128-bit type: the wrong programs about carries (must-fail/) are wrong in these sums.
ghost use Rattle.std.specs.Prelude.{◌≡◌, ◌*◌, ◌/◌, ◌%◌, ◌^◌};

// 2^32.
const HALF: u64 = 4294967296;

// a * b / 2^64, rounded down.
pub fn high(a: u64, b: u64) -> u64
    ensures { result ≡ a * b / 2 ^ 64 }
{
    let a1 = a / HALF;
    let a0 = a % HALF;
    let b1 = b / HALF;
    let b0 = b % HALF;
    let middle = a1 * b0 + a0 * b0 / HALF;
    let upper = a0 * b1 + middle % HALF;
    a1 * b1 + middle / HALF + upper / HALF
}

// a * b mod 2^64.
pub fn low(a: u64, b: u64) -> u64
    ensures { result ≡ a * b % 2 ^ 64 }
{
    let a1 = a / HALF;
    let a0 = a % HALF;
    let b1 = b / HALF;
    let b0 = b % HALF;
    let bottom = a0 * b0;
    let middle = (a1 * b0 % HALF + a0 * b1 % HALF + bottom / HALF) % HALF;
    middle * HALF + bottom % HALF
}
