// A text that grows in lent bytes, byte by byte and word by word.
#![tactic(auto)]

ghost use Rattle.std.specs.Prelude.{[], ◌∷◌};
ghost use Rattle.out_text.specs.Grows.{Grows};

// Lent bytes, and the place where the text in them ends. What is put at its end, and does not fit into the bytes, is
// left out. The end may be any number, also past the bytes, where nothing fits.
#[derive(Drop)]
pub struct Text<'a> {
    pub bytes: &'a mut [u8],
    pub end: usize,
}

impl Text<'_> {
    // One byte.
    pub fn put_byte(&mut self, byte: u8)
        ensures { Grows (byte ∷ []) self.old self.new }
    {
        if self.end < self.bytes.len() {
            self.bytes[self.end] = byte;
            self.end += 1;
        }
    }

    // A word. By `copy_from_slice` it is no plainer: the part that fits has to be found, and words have few bytes.
    pub fn put_bytes(&mut self, bytes: &[u8])
        ensures { Grows bytes.now self.old self.new }
    {
        for byte in bytes {
            self.put_byte(*byte);
        }
    }
}
