// Lines of the materials and the limits of a record, put at the end of a text. One function for both, which takes what
// puts a line, is no plainer: each is a `for` of one call, and what it asks of the record differs.
#![tactic(auto)]

ghost use Rattle.std.specs.Prelude.{suc};
ghost use Rattle.rules.specs.Listing.{lines};
ghost use Rattle.out_text.specs.Grows.{Grows};
ghost use Rattle.out_rows.specs.RecordLines.{material_line, limit_line, MaterialsInside, LimitsInside};

use bytes_read::signed_at;
use out_layout::SUMS_AT;
use out_lines::put_line;
use out_text::Text;

// The line of a material.
// To i64 by `as`, since usize has no `From` to it, and a `TryFrom` that cannot fail is no plainer.
fn put_material(text: &mut Text, record: &[u8], j: usize)
    requires { MaterialsInside «record».now (suc j) }
    ensures { Grows (material_line «record».now j) text.old text.new }
{
    let sum = signed_at(record, SUMS_AT + 4 * j, 4);
    let figures = [j as i64, sum];
    put_line(text, b"mat", &figures);
}

// The lines of the materials.
pub fn put_materials(text: &mut Text, record: &[u8], n: usize)
    requires { MaterialsInside «record».now n }
    ensures { Grows (lines n (material_line «record».now)) text.old text.new }
{
    for j in 0..n {
        put_material(text, record, j);
    }
}

// The line of a limit, in a record with the places where its multipliers and its residual totals begin: parameters of
// two functions, for which a struct would be no plainer.
fn put_limit(text: &mut Text, record: &[u8], multipliers: usize, totals: usize, i: usize)
    requires { LimitsInside «record».now multipliers totals (suc i) }
    ensures { Grows (limit_line «record».now multipliers totals i) text.old text.new }
{
    let multiplier = signed_at(record, multipliers + 4 * i, 4);
    let total = signed_at(record, totals + 8 * i, 8);
    let figures = [i as i64, multiplier, total];
    put_line(text, b"lim", &figures);
}

// The lines of the limits.
pub fn put_limits(text: &mut Text, record: &[u8], multipliers: usize, totals: usize, m: usize)
    requires { LimitsInside «record».now multipliers totals m }
    ensures { Grows (lines m (limit_line «record».now multipliers totals)) text.old text.new }
{
    for i in 0..m {
        put_limit(text, record, multipliers, totals, i);
    }
}
