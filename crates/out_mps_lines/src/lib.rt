// Lines of a free MPS text (T14.3), put at the end of a text.
#![tactic(auto)]

ghost use Rattle.rules_mps.specs.Mps.{row_line, cost_line, coefficient_line, rhs_line, bound_lines};
ghost use Rattle.out_text.specs.Grows.{Grows};

use out_mps_fields::{put_last, put_name};
use out_text::Text;

// Limit i in ROWS.
pub fn put_row(text: &mut Text, i: usize)
    ensures { Grows (row_line i) text.old text.new }
{
    put_name(text, b" L L", i);
    text.put_byte(b'\n');
}

// The cost of material j in COLUMNS.
pub fn put_cost(text: &mut Text, j: usize, cost: i64)
    ensures { Grows (cost_line j cost) text.old text.new }
{
    put_name(text, b" X", j);
    text.put_bytes(b" COST");
    put_last(text, cost);
}

// The coefficient of material j and limit i in COLUMNS.
pub fn put_coefficient(text: &mut Text, j: usize, i: usize, coefficient: i64)
    ensures { Grows (coefficient_line j i coefficient) text.old text.new }
{
    if coefficient == 0 {
        return;
    }
    put_name(text, b" X", j);
    put_name(text, b" L", i);
    put_last(text, coefficient);
}

// The right-hand side of limit i in RHS.
pub fn put_rhs(text: &mut Text, i: usize, rhs: i64)
    ensures { Grows (rhs_line i rhs) text.old text.new }
{
    if rhs == 0 {
        return;
    }
    put_name(text, b" RHS L", i);
    put_last(text, rhs);
}

// The least and the most amount of material j in BOUNDS.
pub fn put_bounds(text: &mut Text, j: usize, least: i64, most: i64)
    ensures { Grows (bound_lines j least most) text.old text.new }
{
    put_name(text, b" LO BND X", j);
    put_last(text, least);
    put_name(text, b" UP BND X", j);
    put_last(text, most);
}
