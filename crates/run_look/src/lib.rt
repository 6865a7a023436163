// A look at given multipliers: the amounts that minimise the Lagrangian, their residuals, and the dual value.
#![tactic(auto)]

ghost use Rattle.std.specs.Prelude.{◌≡◌};
ghost use Rattle.rules.specs.Notation.{tabulate, at};
ghost use Rattle.rules.specs.Step.{residual, look_at};
ghost use Rattle.sheet_figures.specs.Figures.{problem_of};
ghost use Rattle.sheet_figures.specs.Padded.{padded};
ghost use Rattle.run_look.specs.Given.{LookIn};
ghost use Rattle.run_look.specs.LookFits.{ResidualsFit, LookFits};

use run_amounts::choose_amounts;
use run_costs::scaled_cost;
use run_sums::dot;
use sheet_figures::Figures;

// The residuals of amounts (T4.4), into an array of zeros.
fn take_residuals(
    f: &Figures,
    coefficient: &[i16; 512],
    amounts: &[i16; 32],
    residuals: &mut [i32; 16],
)
    requires { ResidualsFit (problem_of f.now coefficient.now) (at amounts.now) residuals.old }
    ensures { residuals.new ≡ padded 16 (tabulate f.now.limits
        (residual (problem_of f.now coefficient.now) (at amounts.now))) }
{
    for i in 0..f.limits {
        let load = dot(f.materials, 0, &coefficient[32 * i..], amounts);
        residuals[i] = load - f.rhs[i];
    }
}

// The look at given multipliers: the dual value (T4.5), with the amounts and the residuals in two lent arrays, which
// are to hold zeros. Places from n and from m on keep them.
pub fn look_at(
    f: &Figures,
    coefficient: &[i16; 512],
    multipliers: &[i32; 16],
    amounts: &mut [i16; 32],
    residuals: &mut [i32; 16],
) -> i64
    requires { LookFits (problem_of f.now coefficient.now) (at multipliers.now) amounts.old residuals.old }
    ensures { LookIn (look_at (problem_of f.now coefficient.now) (at multipliers.now))
        amounts.new residuals.new result }
{
    choose_amounts(f, coefficient, multipliers, amounts);
    take_residuals(f, coefficient, amounts, residuals);
    dot(f.limits, scaled_cost(f, amounts), multipliers, residuals)
}
