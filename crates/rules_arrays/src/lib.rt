// A sheet from plain arrays: the definitions stand in specs/, and here is how code is lent the arrays.
#![tactic(auto)]

use std::marker::Model;

// The figures of a sheet in plain arrays, 0 for those that are absent (TASK.md, T13.1). Contracts see the lists that
// the slices point to: `Arrays` of specs/Arrays.
#[derive(Drop)]
pub struct Arrays<'a> {
    pub costs: &'a [i32],
    pub least_amounts: &'a [i32],
    pub most_amounts: &'a [i32],
    pub coefficients: &'a [i32],
    pub right_hand_sides: &'a [i32],
    pub starts: &'a [i32],
}

impl<'a> Model for Arrays<'a> {
    ghost use Rattle.rules_arrays.specs.Arrays.{Arrays, arrays};

    ghost Value = { Arrays };

    ghost view = { λ lent. arrays lent.costs.now lent.least_amounts.now lent.most_amounts.now
        lent.coefficients.now lent.right_hand_sides.now lent.starts.now };
}
