// Sections of a free MPS text (T14.3), without the lines that name them, put at the end of a text. The figures stand in
// arrays as `sheet_figures` has them. One function for all, which takes what puts a line, is no plainer: each is a
// `for` of one call, and the contract says which lines. `i64::from` was tried in place of `as i64`: the proof then
// wants two laws of conversion for a figure in place of one.
#![tactic(auto)]

ghost use Rattle.std.specs.Prelude.{◌+◌, ◌*◌, ◌≤◌};
ghost use Rattle.rules.specs.Notation.{at as element};
ghost use Rattle.rules.specs.Listing.{lines};
ghost use Rattle.rules_mps.specs.Mps.{row_line, coefficient_line, column_lines, rhs_line, bound_lines};
ghost use Rattle.out_text.specs.Grows.{Grows};
ghost use Rattle.out_mps_sections.specs.Sizes.{ColumnInside, SizesInside};

use out_mps_lines::{put_bounds, put_coefficient, put_cost, put_rhs, put_row};
use out_text::Text;
use sheet_figures::Figures;

// The limits in ROWS.
pub fn put_rows(text: &mut Text, m: usize)
    ensures { Grows (lines m row_line) text.old text.new }
{
    for i in 0..m {
        put_row(text, i);
    }
}

// The coefficients of material j in COLUMNS.
fn put_coefficients(text: &mut Text, j: usize, limits: usize, coefficient: &[i16; 512])
    requires { ColumnInside j limits }
    ensures { Grows (lines limits (λ i. coefficient_line j i (element coefficient.now (32 * i + j))))
        text.old text.new }
{
    for i in 0..limits {
        put_coefficient(text, j, i, coefficient[32 * i + j] as i64);
    }
}

// All of material j in COLUMNS.
fn put_column(text: &mut Text, j: usize, f: &Figures, coefficient: &[i16; 512])
    requires { ColumnInside j f.now.limits }
    ensures { Grows (column_lines j f.now.limits (element f.now.cost j) (λ i. element coefficient.now (32 * i + j)))
        text.old text.new }
{
    put_cost(text, j, f.cost[j] as i64);
    put_coefficients(text, j, f.limits, coefficient);
}

// The materials in COLUMNS.
pub fn put_columns(text: &mut Text, f: &Figures, coefficient: &[i16; 512])
    requires { SizesInside f.now.materials f.now.limits }
    ensures { Grows (lines f.now.materials (λ j. column_lines j f.now.limits (element f.now.cost j)
        (λ i. element coefficient.now (32 * i + j)))) text.old text.new }
{
    for material in 0..f.materials {
        put_column(text, material, f, coefficient);
    }
}

// The limits in RHS.
pub fn put_right_hand_sides(text: &mut Text, f: &Figures)
    requires { f.now.limits ≤ 16 }
    ensures { Grows (lines f.now.limits (λ i. rhs_line i (element f.now.rhs i))) text.old text.new }
{
    for i in 0..f.limits {
        put_rhs(text, i, f.rhs[i] as i64);
    }
}

// The materials in BOUNDS.
pub fn put_all_bounds(text: &mut Text, f: &Figures)
    requires { f.now.materials ≤ 32 }
    ensures { Grows (lines f.now.materials (λ j. bound_lines j (element f.now.least j) (element f.now.most j)))
        text.old text.new }
{
    for j in 0..f.materials {
        put_bounds(text, j, f.least[j] as i64, f.most[j] as i64);
    }
}
