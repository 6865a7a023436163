// What a step adds in place: the sums take its amounts, and the residual totals its residuals.
#![tactic(auto)]

ghost use Rattle.std.specs.Prelude.{◌+ℤ◌, map, length};
ghost use Rattle.rules.specs.Notation.{at};
ghost use Rattle.run_totals.specs.Changed.{Changed};
ghost use Rattle.run_totals.specs.Totals.{TotalsFit};

use run_arithmetic::Total;

// What one step gives, added to the totals in place: amounts of i16 to sums of i32, and residuals of i32 to residual
// totals of i64. The count stands beside them: without it each caller would cut both arrays to n or m places.
pub fn add<T: Total>(count: usize, totals: &mut [T], more: &[T::Part])
    requires { TotalsFit T.width (length totals.old) (length more.now) count
        (at (map T.value totals.old)) (at (map T.part_value more.now)) }
    ensures { Changed count (λ i. at (map T.value totals.old) i +ℤ at (map T.part_value more.now) i)
        (map T.value totals.old) (map T.value totals.new) }
{
    for i in 0..count {
        totals[i] = totals[i].plus(T::from(more[i]));
    }
}
