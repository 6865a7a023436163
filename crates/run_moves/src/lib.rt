// The move of the multipliers, and refusal 10.
#![tactic(auto)]

ghost use Rattle.rules.specs.Notation.{at};
ghost use Rattle.run_moves.specs.Moves.{limits_of, MoveFits, Moved};

use sheet_figures::Figures;

// The move of the multipliers in place, each from its old one. It ends before the first that diverged, and answers
// whether there is one: a `Result` with nothing on either side would be no plainer.
pub fn move_multipliers(f: &Figures, multipliers: &mut [i32; 16], residuals: &[i32; 16]) -> bool
    requires { MoveFits (limits_of f.now) (at multipliers.old) (at residuals.now) }
    ensures { Moved (limits_of f.now) (at residuals.now)
        multipliers.old multipliers.new result }
{
    // `as` here and below: a `TryFrom` that cannot fail is no plainer
    let p = f.numerator as i64;
    for i in 0..f.limits {
        let uncut = i64::from(multipliers[i]) + p * i64::from(residuals[i]);
        let moved = uncut.max(0);
        if 1_073_741_824 < moved {
            return true;
        }
        multipliers[i] = moved as i32;
    }
    false
}
