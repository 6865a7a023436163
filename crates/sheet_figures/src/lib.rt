// A sheet's figures in arrays, for the run. The coefficients, which are many, stand in an array of their own that is
// lent: a_ij at place 32 i + j. What stands at which place is said in specs/.
//
// No struct lends both: eleven functions take the figures alone, and of the lent array `read_sheet` promises what it
// keeps (`Reads`). No invariant says that n is at most 32 and m at most 16: `figures_of` makes figures of any problem.
// The arrays have fixed lengths, with n and m beside them, as there is no heap; and there is one for each kind of
// figure, since a sum of products takes the costs as they lie.
#![tactic(auto)]

// Places from n and from m on hold 0.
#[derive(Clone, Copy)]
pub struct Figures {
    // n
    pub materials: usize,
    // m
    pub limits: usize,
    // p, the step numerator
    pub numerator: usize,
    // D, the scale
    pub scale: usize,
    // k, the step count
    pub steps: usize,
    // c_j at place j
    pub cost: [i16; 32],
    // l_j at place j
    pub least: [i16; 32],
    // u_j at place j
    pub most: [i16; 32],
    // b_i at place i
    pub rhs: [i32; 16],
    // the starting multiplier s_i at place i
    pub start: [i32; 16],
}
