// What a row and a column of a sheet mean: a figure of a kind, or none.
#![tactic(auto)]

ghost use Rattle.std.specs.Prelude.{◌≡◌, ◌||◌, ◌+◌, ltb, leb};
ghost use Rattle.rules.specs.Ranges.{kind_at};
ghost use Rattle.sheet_kinds.specs.Meaning.{meaning_of, meaning_at};
ghost use Rattle.proof_laws.specs.Read.{gives, unless};

use rules::{Kind, Shape};

// A figure of a material stands in the columns below n.
fn of_material(kind: Kind, shape: Shape, column: usize) -> Option<Kind>
    ensures { meaning_of result
        ≡ unless 5 (ltb (shape.materials + 1) column || leb shape.materials column) (gives kind) }
{
    let n = shape.materials;
    if n <= column { None } else { Some(kind) }
}

// In a limit's row, its coefficients stand in the columns below n, then its right-hand side and its start.
fn of_limit(shape: Shape, column: usize) -> Option<Kind>
    ensures { meaning_of result ≡ unless 5 (ltb (shape.materials + 1) column) (gives (kind_at shape 3 column)) }
{
    let n = shape.materials;
    if column < n {
        return Some(Kind::Coefficient);
    }
    let past = column - n;
    match past {
        0 => Some(Kind::Rhs),
        1 => Some(Kind::Start),
        _ => None,
    }
}

// What stands at a row and a column (T3.2).
pub fn meaning_at(shape: Shape, row: usize, column: usize) -> Option<Kind>
    ensures { meaning_of result ≡ meaning_at shape row column }
{
    let m = shape.limits;
    match row {
        0 => of_material(Kind::Cost, shape, column),
        1 => of_material(Kind::Least, shape, column),
        2 => of_material(Kind::Most, shape, column),
        3.. if row - 3 < m => of_limit(shape, column),
        _ => None,
    }
}
