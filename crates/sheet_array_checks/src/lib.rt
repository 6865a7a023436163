// The tests of figures in plain arrays, and how many of them are not 0. Refusals 2, 4, 6 and 7.
#![tactic(auto)]

ghost use Rattle.std.specs.Prelude.{◌≡◌};
ghost use Rattle.rules.specs.Refusals.{refusal_of};
ghost use Rattle.rules_arrays.specs.Arrays.{lengths_match, arrays_refusal};
ghost use Rattle.rules_arrays.specs.ReadBack.{present_in};
ghost use Rattle.sheet_arrays.specs.Tested.{outside, any_outside, arrays_outside};
ghost use Rattle.sheet_array_checks.specs.Checks.{SmallShape, amounts_refusal, AsMany};

use rules::{Cause, Kind, Refusal, Shape, Sizes};
use rules_arrays::Arrays;
use sheet_ranges::in_range;
use sheet_sizes::{dimensions_in_range, parameters_in_range};

// How many figures of an array are not 0. A chain of `filter` and `count` was tried: writing a large sheet took a sixth
// longer.
pub fn present_in(figures: &[i32]) -> usize
    ensures { result ≡ present_in figures.now }
{
    let mut count = 0;
    for figure in figures {
        count += usize::from(*figure != 0);
    }
    count
}

// Whether a figure is neither 0 nor in the range of its kind.
fn outside(kind: Kind, figure: i32) -> bool
    ensures { result ≡ outside kind figure }
{
    figure != 0 && !in_range(kind, figure)
}

// Whether an array has such a figure.
fn any_outside(kind: Kind, figures: &[i32]) -> bool
    ensures { result ≡ any_outside kind figures.now }
{
    figures.iter().any(|figure| outside(kind, *figure))
}

// Whether one of the arrays has.
fn figures_outside(arrays: &Arrays) -> bool
    ensures { result ≡ arrays_outside arrays.now }
{
    any_outside(Kind::Cost, arrays.costs)
        | any_outside(Kind::Least, arrays.least_amounts)
        | any_outside(Kind::Most, arrays.most_amounts)
        | any_outside(Kind::Coefficient, arrays.coefficients)
        | any_outside(Kind::Rhs, arrays.right_hand_sides)
        | any_outside(Kind::Start, arrays.starts)
}

// Whether each array has as many figures as n and m say.
fn lengths_match(shape: Shape, arrays: &Arrays) -> bool
    requires { SmallShape shape }
    ensures { result ≡ lengths_match shape arrays.now }
{
    let n = shape.materials;
    let m = shape.limits;
    (arrays.costs.len() == n)
        & (arrays.least_amounts.len() == n)
        & (arrays.most_amounts.len() == n)
        & (arrays.coefficients.len() == n * m)
        & (arrays.right_hand_sides.len() == m)
        & (arrays.starts.len() == m)
}

// Refusal 7: the first material whose least amount is above its most. `sheet_checks::check_bounds` is the same test of
// the table; each crate keeps its own, on which its edits `bounds_may_not_meet` and the like stand.
fn check_amounts(least_amounts: &[i32], most_amounts: &[i32]) -> Result<(), Refusal>
    requires { AsMany least_amounts.now most_amounts.now }
    ensures { refusal_of result ≡ amounts_refusal least_amounts.now most_amounts.now }
{
    match least_amounts
        .iter()
        .zip(most_amounts)
        .position(|(lowest, highest)| highest < lowest)
    {
        Some(material) => Err(Cause::Bounds.at(material)),
        None => Ok(()),
    }
}

// Refusals 2, 4, 6 and 7, in this order.
pub fn check_arrays(sizes: Sizes, arrays: &Arrays) -> Result<(), Refusal>
    ensures { refusal_of result ≡ arrays_refusal sizes arrays.now }
{
    let shape = sizes.shape;
    if !dimensions_in_range(shape, 0) {
        return Err(Cause::Dimensions.at(0));
    }
    if !lengths_match(shape, arrays) {
        return Err(Cause::Dimensions.at(0));
    }
    if !parameters_in_range(sizes) {
        return Err(Cause::Parameters.at(0));
    }
    if figures_outside(arrays) {
        return Err(Cause::Value.at(0));
    }
    check_amounts(arrays.least_amounts, arrays.most_amounts)
}
