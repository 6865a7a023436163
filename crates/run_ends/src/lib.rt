// The ends of the bounds, each chosen by the sign of a weight.
#![tactic(auto)]

ghost use Rattle.std.specs.Prelude.{◌≡◌};
ghost use Rattle.rules.specs.Notation.{tabulate};
ghost use Rattle.sheet_figures.specs.Padded.{padded};
ghost use Rattle.run_ends.specs.Ends.{end_by};
ghost use Rattle.run_ends.specs.SignedEnds.{materials_of, signed_end, EndsFit};

use sheet_figures::Figures;

// The end of the bounds that a weight chooses: the most amount where it is below 0, else the least.
#[tactic(auto, unfolding(crate::specs::Ends::end_by))]
pub fn end_by(weight: i64, least: i16, most: i16) -> i16
    ensures { result ≡ end_by weight least most }
{
    if weight < 0 { most } else { least }
}

// The end of the bounds of each material that its cost chooses, or, where the sign is -1, the cost's opposite: into an
// array of zeros. The sign is a factor and no switch: a function in its place would be no plainer.
pub fn choose_ends(f: &Figures, sign: i64, ends: &mut [i16; 32])
    requires { EndsFit f.now.materials sign ends.old }
    ensures { ends.new ≡ padded 32 (tabulate f.now.materials (signed_end sign (materials_of f.now))) }
{
    for j in 0..f.materials {
        ends[j] = end_by(sign * i64::from(f.cost[j]), f.least[j], f.most[j]);
    }
}
