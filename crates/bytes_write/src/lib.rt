// Numbers into a lent buffer, little-endian. The place and the width come beside the buffer: the contracts say what
// the whole buffer holds, which slices would leave to each caller to put together, so that they would be no plainer.
#![tactic(auto)]

ghost use Rattle.std.specs.Prelude.{◌≡◌};
ghost use Rattle.rules.specs.Bytes.{unsigned_bytes, signed_bytes};
ghost use Rattle.bytes_write.specs.Written.{written_at};
ghost use Rattle.bytes_write.specs.Number.{Room, SignedRoom};

// The unsigned number v in the `width` bytes of d from place `at` on.
pub fn put_unsigned(d: &mut [u8], at: usize, width: usize, v: u64)
    requires { Room at width d.old }
    ensures { d.new ≡ written_at at (unsigned_bytes width v) d.old }
{
    let mut rest = v;
    for byte in &mut d[at..at + width] {
        // `as` to a narrower type: a `TryFrom` that cannot fail is no plainer
        *byte = (rest % 256) as u8;
        rest /= 256;
    }
}

// The signed number v in the `width` bytes of d from place `at` on, in two's complement.
pub fn put_signed(d: &mut [u8], at: usize, width: usize, v: i64)
    requires { SignedRoom at width v d.old }
    ensures { d.new ≡ written_at at (signed_bytes width v) d.old }
{
    put_unsigned(d, at, width, v.cast_unsigned());
}
