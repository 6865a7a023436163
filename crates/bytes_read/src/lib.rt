// Little-endian numbers out of a slice of bytes, at a place, as the layouts say places: to cut a part of the width is
// no plainer for the callers.
#![tactic(auto)]

ghost use Rattle.std.specs.Prelude.{◌≡◌};
ghost use Rattle.rules.specs.Bytes.{signed_of, signed_at};
ghost use Rattle.bytes_read.specs.Inside.{Inside, ReadUnsigned, InWidth};

// The unsigned number in the `width` bytes from place `at` on. By a loop and not by `from_le_bytes`, since the edit
// `digits_by_255` is about its step.
fn unsigned_at(s: &[u8], at: usize, width: usize) -> u64
    requires { Inside width s.now at }
    ensures { ReadUnsigned width s.now at result }
{
    let mut value: u64 = 0;
    for byte in s[at..at + width].iter().rev() {
        value = 256 * value + u64::from(*byte);
    }
    value
}

// The number v of `width` bytes as a signed one, in two's complement: shifted up until its sign bit is the highest of
// 64, and, with the sign, down again. The library's `from_le_bytes` are of one width each, and no plainer for all.
#[tactic(auto, using(crate::proofs::Shifted::signed_shifted))]
fn signed_of(v: u64, width: usize) -> i64
    requires { InWidth width v }
    ensures { result ≡ signed_of width v }
{
    let unused = 64 - 8 * width;
    (v << unused).cast_signed() >> unused
}

// The signed number in the `width` bytes from place `at` on.
#[tactic(auto, unfolding(rules::specs::Bytes::signed_at))]
pub fn signed_at(s: &[u8], at: usize, width: usize) -> i64
    requires { Inside width s.now at }
    ensures { result ≡ signed_at width s.now at }
{
    signed_of(unsigned_at(s, at, width), width)
}

// The signed number in the 4 bytes from place `at` on, in 32 bits.
pub fn signed_32(s: &[u8], at: usize) -> i32
    requires { Inside 4 s.now at }
    ensures { result ≡ signed_at 4 s.now at }
{
    signed_at(s, at, 4) as i32
}

// The unsigned number in the 2 bytes from place `at` on, as a size, a count or a place. There is no `From` here, and a
// `TryFrom` wants an unwrap: `as`, which is proved to lose nothing, is plainer, here and wherever sizes are widened.
pub fn size_at(s: &[u8], at: usize) -> usize
    requires { Inside 2 s.now at }
    ensures { ReadUnsigned 2 s.now at result }
{
    unsigned_at(s, at, 2) as usize
}
