// From the table of a sheet's figures by key to the arrays of the run: each figure at its place, in its width.
#![tactic(auto)]

ghost use Rattle.std.specs.Prelude.{◌≡◌, ◌+◌, length};
ghost use Rattle.rules.specs.Sheet.{key_of, problem_from};
ghost use Rattle.proof_magnitudes.specs.Accepted.{Accepted};
ghost use Rattle.sheet_table.specs.Tabled.{table_in};
ghost use Rattle.sheet_figures.specs.Put.{put, put_rows};
ghost use Rattle.sheet_figures.specs.Figures.{figures_of, coefficients_over};
ghost use Rattle.sheet_unpack.specs.Unpacked.{RowFits, RowsFit, ColumnFits};

use rules::Sizes;
use sheet_figures::Figures;
use sheet_table::{Table, place_at};

// The first figures of a row, as many as there are places for, in 16 bits. They fit (`RowFits`), and a `TryFrom` that
// cannot fail is no plainer than `as`.
fn take_row(table: &Table, row: usize, to: &mut [i16])
    requires { RowFits table.now row (length to.old) }
    ensures { to.new
        ≡ put to.old 0 (length to.old) (λ j. table_in table.now (key_of row j)) }
{
    for (j, place) in to.iter_mut().enumerate() {
        *place = table[place_at(row, j)] as i16;
    }
}

// The rows of the limits, n figures of each, each row 32 places on.
fn take_rows(table: &Table, n: usize, m: usize, to: &mut [i16; 512])
    requires { RowsFit table.now n m }
    ensures { to.new
        ≡ put_rows to.old m n (λ i j. table_in table.now (key_of (3 + i) j)) }
{
    for i in 0..m {
        take_row(table, 3 + i, &mut to[32 * i..32 * i + n]);
    }
}

// A column of the rows of the limits, of as many as there are places for. One function for rows and columns would take
// the width as a type with a cast of its own, and row and column of figure j from its caller: it is no plainer.
fn take_column(table: &Table, column: usize, to: &mut [i32])
    requires { ColumnFits column (length to.old) }
    ensures { to.new
        ≡ put to.old 0 (length to.old) (λ i. table_in table.now (key_of (3 + i) column)) }
{
    for (i, place) in to.iter_mut().enumerate() {
        *place = table[place_at(3 + i, column)];
    }
}

// The figures of a table, and its coefficients in a lent array, where the places past n and m stay as lent.
#[tactic(auto, unfolding(rules::specs::Sheet::problem_from))]
pub fn unpack(sizes: Sizes, table: &Table, coefficient: &mut [i16; 512]) -> Figures
    requires { Accepted (problem_from sizes (table_in table.now)) sizes.steps }
    ensures value { result ≡ figures_of (problem_from sizes (table_in table.now)) sizes.steps }
    ensures coefficient_after { coefficient.new
        ≡ coefficients_over coefficient.old (problem_from sizes (table_in table.now)) }
{
    let shape = sizes.shape;
    let n = shape.materials;
    let m = shape.limits;
    let mut c: [i16; 32] = [0; 32];
    let mut l: [i16; 32] = [0; 32];
    let mut u: [i16; 32] = [0; 32];
    let mut b: [i32; 16] = [0; 16];
    let mut s: [i32; 16] = [0; 16];
    take_row(table, 0, &mut c[..n]);
    take_row(table, 1, &mut l[..n]);
    take_row(table, 2, &mut u[..n]);
    take_rows(table, n, m, coefficient);
    take_column(table, n, &mut b[..m]);
    take_column(table, n + 1, &mut s[..m]);
    Figures {
        materials: n,
        limits: m,
        numerator: sizes.numerator,
        scale: sizes.scale,
        steps: sizes.steps,
        cost: c,
        least: l,
        most: u,
        rhs: b,
        start: s,
    }
}
