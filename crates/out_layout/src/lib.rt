// Where the record has its fields (T6.1): each begins where the one before ends.
// A change of places is made here and in `rules`. n and m are two numbers, as in the definitions (`totals_at n m`), and
// no caller has a `Shape`.
#![tactic(auto)]

ghost use Rattle.std.specs.Prelude.{◌≡◌, ◌≤◌};
ghost use Rattle.rules.specs.Record.{multipliers_at, totals_at, record_length};
ghost use Rattle.out_layout.specs.RecordSizes.{RecordSizes};

// n is at place 0, in 2 bytes; m, also in 2:
pub const LIMITS_AT: usize = 2;

// k, in 2 bytes
pub const STEPS_AT: usize = LIMITS_AT + 2;

// low, in 8 bytes
pub const LOW_AT: usize = STEPS_AT + 2;

// gap, in 8 bytes
pub const GAP_AT: usize = LOW_AT + 8;

// the sums, in 4 bytes each
pub const SUMS_AT: usize = GAP_AT + 8;

// The length of the longest record (T6.2): 32 materials and 16 limits.
pub const LONGEST: usize = SUMS_AT + 4 * 32 + 4 * 16 + 8 * 16;

// The multipliers come after n sums, in 4 bytes each.
pub fn multipliers_at(n: usize) -> usize
    requires { n ≤ 32 }
    ensures { result ≡ multipliers_at n }
{
    SUMS_AT + 4 * n
}

// The residual totals come after m multipliers, in 8 bytes each.
pub fn totals_at(n: usize, m: usize) -> usize
    requires { RecordSizes n m }
    ensures { result ≡ totals_at n m }
{
    multipliers_at(n) + 4 * m
}

// The record ends after m residual totals.
#[tactic(auto, unfolding(rules::specs::Record::record_length))]
pub fn record_length(n: usize, m: usize) -> usize
    requires { RecordSizes n m }
    ensures { result ≡ record_length n m }
{
    totals_at(n, m) + 8 * m
}
