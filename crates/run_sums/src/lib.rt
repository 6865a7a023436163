// Sums of products: the loops of the run over materials and limits.
#![tactic(auto)]

ghost use Rattle.std.specs.Prelude.{◌≡◌, ◌+◌, ◌*◌, ◌+ℤ◌, ◌*ℤ◌, map};
ghost use Rattle.rules.specs.Notation.{sum_to, at};
ghost use Rattle.run_sums.specs.SumsFit.{PairsFit, ColumnFits};

use run_arithmetic::Total;

// `first`, and Σ_i x_i·y_i over the first `count` places: of i16 in 32 bits, and of i32 in 64.
// The count stands beside the slices: without it each of the three callers would cut both arrays to n or m places.
pub fn dot<T: Total>(count: usize, first: T, x: &[T::Part], y: &[T::Part]) -> T
    requires { PairsFit T.width count (T.value first) (map T.part_value x.now) (map T.part_value y.now) }
    ensures { T.value result ≡ T.value first
        +ℤ sum_to count (λ i. at (map T.part_value x.now) i *ℤ at (map T.part_value y.now) i) }
{
    let mut sum = first;
    for i in 0..count {
        sum = sum.plus_product(x[i], y[i]);
    }
    sum
}

// `first`, and Σ_i x_i·a_(from+stride·i) over the first m places of x, in 64 bits: x times a column of a. It is no
// instance of `dot`: a column has a stride, and i16 stand beside i32. There is one instance, so that a generic function
// would be no plainer.
pub fn dot_column_64(m: usize, first: i64, x: &[i32], a: &[i16], from: usize, stride: usize) -> i64
    requires { ColumnFits m first x.now a.now from stride }
    ensures { result ≡ first +ℤ sum_to m (λ i. at x.now i *ℤ at a.now (from + stride * i)) }
{
    let mut sum = first;
    for i in 0..m {
        sum = sum.plus_product(x[i], i32::from(a[from + stride * i]));
    }
    sum
}
