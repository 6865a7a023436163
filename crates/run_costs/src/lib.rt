// Costs over the bounds and of sums: D times the cost of amounts, the greatest and the cheapest that the bounds allow,
// and the gap.
#![tactic(auto)]

ghost use Rattle.std.specs.Prelude.{◌≡◌, pos, ◌*ℤ◌, ◌-ℤ◌};
ghost use Rattle.std.specs.Int.{w64};
ghost use Rattle.std.proofs.Common.{SFits};
ghost use Rattle.rules.specs.Notation.{at};
ghost use Rattle.rules.specs.Problem.{cost_of};
ghost use Rattle.rules.specs.Step.{greatest_cost, cheapest_cost};
ghost use Rattle.rules.specs.Run.{gap_of};
ghost use Rattle.proof_magnitudes.specs.CostRange.{cheapest_end, greatest_end};
ghost use Rattle.run_ends.specs.SignedEnds.{materials_of, signed_end};
ghost use Rattle.run_costs.specs.Costs.{CostFits, SignedEndsFit, GapFits};

use run_ends::choose_ends;
use run_sums::{dot, dot_column_64};
use sheet_figures::Figures;

// D times the cost of amounts.
// To i64 by `as`, since usize has no `From` to it, and a `TryFrom` that cannot fail is no plainer.
pub fn scaled_cost(f: &Figures, amounts: &[i16; 32]) -> i64
    requires { CostFits (materials_of f.now) (at amounts.now) }
    ensures { result ≡ pos f.now.scale *ℤ cost_of (materials_of f.now) (at amounts.now) }
{
    let sum: i32 = dot(f.materials, 0, &f.cost, amounts);
    (f.scale as i64) * i64::from(sum)
}

// D times the cost at the ends that the costs choose, each times a sign.
fn value_at_ends(f: &Figures, sign: i64) -> i64
    requires { SignedEndsFit sign (materials_of f.now) }
    ensures { result ≡ pos f.now.scale *ℤ
        cost_of (materials_of f.now) (signed_end sign (materials_of f.now)) }
{
    let mut ends = [0; 32];
    choose_ends(f, sign, &mut ends);
    scaled_cost(f, &ends)
}

// D times the greatest cost that the bounds allow (T4.6). docs/PROMISES.md names this function and the next, each one
// call with a sign.
pub fn greatest_value(f: &Figures) -> i64
    requires { CostFits (materials_of f.now) (greatest_end (materials_of f.now)) }
    ensures { result ≡ pos f.now.scale *ℤ greatest_cost (materials_of f.now) }
{
    value_at_ends(f, -1)
}

// D times the cheapest cost that the bounds allow.
pub fn cheapest_value(f: &Figures) -> i64
    requires { CostFits (materials_of f.now) (cheapest_end (materials_of f.now)) }
    ensures { result ≡ pos f.now.scale *ℤ cheapest_cost (materials_of f.now) }
{
    value_at_ends(f, 1)
}

// A difference, which may be negative. It is a function of its own so that a clipped gap (`gap_clipped`) fails at a
// fact, and not at the text of the proof of `gap`.
fn difference(from: i64, less: i64) -> i64
    requires { SFits w64 (from -ℤ less) }
    ensures { result ≡ from -ℤ less }
{
    from - less
}

// The gap of all steps, a low and sums (T5.4).
pub fn gap(f: &Figures, sums: &[i32; 32], low: i64) -> i64
    requires { GapFits (materials_of f.now) f.now.steps low (at sums.now) }
    ensures { result ≡ gap_of (materials_of f.now) f.now.steps low (at sums.now) }
{
    let sum = dot_column_64(f.materials, 0, sums, &f.cost, 0, 1);
    difference((f.scale as i64) * sum, (f.steps as i64) * low)
}
