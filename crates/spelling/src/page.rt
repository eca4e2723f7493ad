// A page: a lent list of bytes on which texts and numbers are written one behind the other.
ghost use Rattle.std.specs.Prelude.{◌≡◌, ◌∷◌, length};
ghost use Rattle.spelling.specs.Decimal.{decimal};
ghost use Rattle.spelling.specs.Inner.{Room, Written};

use itoa::Buffer;

// The lent list, and the place in it from which the next bytes are written.
#[derive(Drop)]
pub struct Page<'a> {
    bytes: &'a mut [u8],
    at: usize,
}

impl<'a> Page<'a> {
    // A page of the list, with nothing written.
    pub fn new(bytes: &'a mut [u8]) -> Page<'a>
        ensures same_list { result.bytes.ghost_name ≡ bytes.entry.ghost_name }
        ensures bytes { result.bytes.now ≡ bytes.old }
        ensures place { result.at ≡ 0 }
    {
        Page { bytes, at: 0 }
    }

    // The place after all that is written.
    pub fn place(&self) -> usize
        ensures { result ≡ self.now.at }
    {
        self.at
    }

    // Writes the text.
    pub fn text(&mut self, text: &[u8])
        requires { Room self.old (length text.now) }
        ensures { Written self.old text.now self.new }
    {
        let end = self.at + text.len();
        self.bytes[self.at..end].copy_from_slice(text);
        self.at = end;
    }

    // Writes n in decimal.
    #[tactic(auto, using(crate::proofs::Spelling::same_decimal))]
    pub fn decimal(&mut self, n: u64)
        requires { Room self.old (length (decimal n)) }
        ensures { Written self.old (decimal n) self.new }
    {
        let mut digits = Buffer::new();
        self.text(digits.format(n).as_bytes());
    }

    // Writes a blank and then n.
    pub fn field(&mut self, n: u64)
        requires { Room self.old (length (32 ∷ decimal n)) }
        ensures { Written self.old (32 ∷ decimal n) self.new }
    {
        self.text(b" ");
        self.decimal(n);
    }
}
