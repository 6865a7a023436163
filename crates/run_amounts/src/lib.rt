// The amounts at given multipliers: each material takes the end of its bounds that its reduced cost chooses (T4.3).
#![tactic(auto)]

ghost use Rattle.std.specs.Prelude.{◌≡◌};
ghost use Rattle.rules.specs.Notation.{tabulate, at};
ghost use Rattle.rules.specs.Step.{amount};
ghost use Rattle.sheet_figures.specs.Figures.{problem_of};
ghost use Rattle.sheet_figures.specs.Padded.{padded};
ghost use Rattle.run_amounts.specs.Amounts.{AmountFits, AmountsFit};

use run_ends::end_by;
use run_sums::dot_column_64;
use sheet_figures::Figures;

// The amount of material j.
// To i64 by `as`, since usize has no `From` to it, and a `TryFrom` that cannot fail is no plainer.
fn amount_at(f: &Figures, coefficient: &[i16; 512], multipliers: &[i32; 16], j: usize) -> i16
    requires { AmountFits (problem_of f.now coefficient.now) (at multipliers.now) j }
    ensures { result ≡ amount (problem_of f.now coefficient.now) (at multipliers.now) j }
{
    let scaled = (f.scale as i64) * i64::from(f.cost[j]);
    let reduced = dot_column_64(f.limits, scaled, multipliers, coefficient, j, 32);
    end_by(reduced, f.least[j], f.most[j])
}

// The amounts of all materials, into an array of zeros. Places from n on keep them.
pub fn choose_amounts(
    f: &Figures,
    coefficient: &[i16; 512],
    multipliers: &[i32; 16],
    amounts: &mut [i16; 32],
)
    requires { AmountsFit (problem_of f.now coefficient.now) (at multipliers.now) amounts.old }
    ensures { amounts.new ≡ padded 32 (tabulate f.now.materials
        (amount (problem_of f.now coefficient.now) (at multipliers.now))) }
{
    for j in 0..f.materials {
        amounts[j] = amount_at(f, coefficient, multipliers, j);
    }
}
