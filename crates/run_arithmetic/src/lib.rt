// The integers that sums are kept in: i32 for sums of i16, and i64 for sums of i32.
#![tactic(auto)]

ghost use Rattle.std.specs.Prelude.{◌≡◌, ℤ, ◌+ℤ◌, ◌*ℤ◌};
ghost use Rattle.std.specs.Int.{Width, w32, w64};
ghost use Rattle.std.proofs.Common.{SFits};
ghost use Rattle.run_arithmetic.specs.Products.{ProductFits};

// A signed integer that a sum is kept in, and the narrower one that is added to it.
pub trait Total: Copy + From<Self::Part> {
    type Part: Copy;

    // how wide it is, and which numbers it and its part stand for
    ghost width: { Width };

    ghost value: { Self → ℤ };

    ghost part_value: { Self.Part → ℤ };

    // A sum with one more.
    fn plus(self, more: Self) -> Self
        requires { SFits width (value self +ℤ value more) }
        ensures { value result ≡ value self +ℤ value more };

    // sum + x·y.
    fn plus_product(self, x: Self::Part, y: Self::Part) -> Self
        requires { ProductFits width (value self) (part_value x) (part_value y) }
        ensures { value result ≡ value self +ℤ part_value x *ℤ part_value y };

    // a part that is widened stays the number that it is
    ghost widens: { (x : Self.Part) → (wide : Self) → Self.from_gives x wide → value wide ≡ part_value x };
}

impl Total for i32 {
    type Part = i16;

    ghost width = { w32 };

    ghost value = { λ x. x };

    ghost part_value = { λ x. x };

    ghost widens = { λ x wide given. given };

    fn plus(self, amount: i32) -> i32 {
        self + amount
    }

    fn plus_product(self, x: i16, y: i16) -> i32 {
        self + i32::from(x) * i32::from(y)
    }
}

impl Total for i64 {
    type Part = i32;

    ghost width = { w64 };

    ghost value = { λ x. x };

    ghost part_value = { λ x. x };

    ghost widens = { λ x wide given. given };

    fn plus(self, residual: i64) -> i64 {
        self + residual
    }

    fn plus_product(self, x: i32, y: i32) -> i64 {
        self + i64::from(x) * i64::from(y)
    }
}
