// The free MPS text of a sheet's figures (T14.3).
#![tactic(auto)]

ghost use Rattle.std.specs.Prelude.{◌+◌, ◌*◌};
ghost use Rattle.rules.specs.Notation.{at as element};
ghost use Rattle.rules_mps.specs.Mps.{mps_text};
ghost use Rattle.sheet_figures.specs.Figures.{problem_of};
ghost use Rattle.out_text.specs.Text.{Puts};
ghost use Rattle.out_text.specs.Grows.{Grows};
ghost use Rattle.out_mps_sections.specs.Sizes.{SizesInside};
ghost use Rattle.out_mps_text.specs.Halves.{upper_text, lower_text};

use out_mps_sections::{put_all_bounds, put_columns, put_right_hand_sides, put_rows};
use out_text::Text;
use sheet_figures::Figures;

// NAME, ROWS and COLUMNS, at the end of a text.
fn put_upper(text: &mut Text, f: &Figures, coefficient: &[i16; 512])
    requires { SizesInside f.now.materials f.now.limits }
    ensures { Grows (upper_text f.now.materials f.now.limits (element f.now.cost)
        (λ i j. element coefficient.now (32 * i + j))) text.old text.new }
{
    text.put_bytes(b"NAME SHEET\nROWS\n N COST\n");
    put_rows(text, f.limits);
    text.put_bytes(b"COLUMNS\n");
    put_columns(text, f, coefficient);
}

// RHS, BOUNDS and ENDATA, at the end of a text.
fn put_lower(text: &mut Text, f: &Figures)
    requires { SizesInside f.now.materials f.now.limits }
    ensures { Grows (lower_text f.now.materials f.now.limits
        (element f.now.rhs) (element f.now.least) (element f.now.most)) text.old text.new }
{
    text.put_bytes(b"RHS\n");
    put_right_hand_sides(text, f);
    text.put_bytes(b"BOUNDS\n");
    put_all_bounds(text, f);
    text.put_bytes(b"ENDATA\n");
}

// Puts the whole text from place 0 on, and answers its length.
pub fn put_text(out: &mut [u8], f: &Figures, coefficient: &[i16; 512]) -> usize
    requires { SizesInside f.now.materials f.now.limits }
    ensures { Puts (mps_text (problem_of f.now coefficient.now)) out.old 0 out.new result }
{
    let mut text = Text { bytes: out, end: 0 };
    put_upper(&mut text, f, coefficient);
    put_lower(&mut text, f);
    text.end
}
