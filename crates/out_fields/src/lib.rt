// Figures into a lent buffer, one after the other.
#![tactic(auto)]

ghost use Rattle.std.specs.Prelude.{◌≡◌, ◌*◌, ◌/◌, ◌^◌, ◌<◌, ◌≤◌, ℕ, ℤ, length, map};
ghost use Rattle.std.specs.Int.Signed.{mag};
ghost use Rattle.std.proofs.Common.{rules};
ghost use Rattle.rules.specs.Record.{fields};
ghost use Rattle.bytes_write.specs.Written.{written};

use bytes_write::put_signed;

// A type of figures: signed numbers of so many bytes. `mag` is n for n and for −(n + 1).
pub trait Figure: Copy {
    ghost WIDTH: { ℕ };

    const WIDTH: usize;

    ghost number: { Self → ℤ };

    // The number in 64 bits.
    fn wide(self) -> i64
        ensures is { result ≡ number self }
        ensures small { mag (number self) < 256 ^ WIDTH / 2 };

    ghost narrow: { WIDTH ≤ 8 };
}

impl Figure for i32 {
    ghost WIDTH = { 4 };

    const WIDTH: usize = 4;

    ghost number = { λ x. x };

    ghost narrow = { Prim.search rules };

    fn wide(self) -> i64 {
        i64::from(self)
    }
}

impl Figure for i64 {
    ghost WIDTH = { 8 };

    const WIDTH: usize = 8;

    ghost number = { λ x. x };

    ghost narrow = { Prim.search rules };

    fn wide(self) -> i64 {
        self
    }
}

// The figures, each in its bytes, to the start of the buffer.
pub fn put_figures<F: Figure>(d: &mut [u8], figures: &[F])
    requires { F.WIDTH * length figures.now ≤ length d.old }
    ensures { d.new ≡ written (fields F.WIDTH (map F.number figures.now)) d.old }
{
    let width = F::WIDTH;
    for (i, figure) in figures.iter().enumerate() {
        put_signed(d, width * i, width, figure.wide());
    }
}
