// What the programs of the gate lend, and how they show what comes back.
ghost use Rattle.std.specs.Prelude.{◌≡◌, ◌+◌, ◌*◌, ◌%◌, ◌<◌, ◌≤◌, false, length, take, EachIndex, slice_index, Some};
ghost use Rattle.std.specs.Fmt.{digit_glyph};
ghost use Rattle.gate_frames.specs.Shown.{hex_of, refused_of};

use rules::Refusal;
use std::{fmt, str};

// What a lent buffer holds before a call: at place i the last byte of 7 i + 3.
pub fn fill(buffer: &mut [u8])
    ensures { EachIndex buffer.new (λ i. slice_index buffer.new i ≡ (7 * i + 3) % 256) }
{
    for (i, byte) in buffer.iter_mut().enumerate() {
        // `as` to a narrower type: a `TryFrom` that cannot fail is no plainer
        *byte = ((7 * (i % 256) + 3) % 256) as u8;
    }
}

// How many bytes are shown by one write.
const PART: usize = 64;

// The digit of a number below 16.
fn digit(n: u8) -> u8
    requires { n < 16 }
    ensures { result ≡ digit_glyph false n }
{
    if n < 10 { b'0' + n } else { b'a' + (n - 10) }
}

// Puts two hexadecimal digits of each byte one after the other, and answers how many digits there are.
fn put_digits(bytes: &[u8], digits: &mut [u8]) -> usize
    requires { 2 * length bytes.now ≤ length digits.old }
    ensures within { result ≤ length digits.new }
    ensures shown { take result digits.new ≡ hex_of bytes.now }
{
    let mut end = 0;
    for &byte in bytes {
        let low = end + 1;
        digits[end] = digit(byte / 16);
        digits[low] = digit(byte % 16);
        end = low + 1;
    }
    end
}

// Bytes, each in two hexadecimal digits, one after the other.
#[derive(Drop)]
pub struct Hex<'a>(pub &'a [u8]);

impl fmt::Display for Hex<'_> {
    ghost output = { λ hex. Some (hex_of hex.0.now) };

    // By parts: a write of each byte, as by `{byte:02x}`, takes several times as long (docs/DESIGN-PASS.md, "Speed").
    fn fmt<W: fmt::Write>(&self, f: &mut fmt::Formatter<W>) -> fmt::Result {
        let mut digits = [0u8; 2 * PART];
        for part in self.0.chunks(PART) {
            let end = put_digits(part, &mut digits);
            let Ok(text) = str::from_utf8(&digits[..end]) else {
                return Err(fmt::Error);
            };
            f.write_str(text)?;
        }
        Ok(())
    }
}

// A refusal: its number and its place.
#[derive(Drop)]
pub struct Refused(pub Refusal);

impl fmt::Display for Refused {
    ghost output = { λ refused. Some (refused_of refused.0) };

    fn fmt<W: fmt::Write>(&self, f: &mut fmt::Formatter<W>) -> fmt::Result {
        let Refusal { cause, place } = self.0;
        write!(f, "refused {} {place}", usize::from(cause))
    }
}
