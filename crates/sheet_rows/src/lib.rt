// The figures of a sheet into a lent buffer, row by row, from plain arrays. What `EntriesReady` asks is no invariant of
// the writer: each function asks it of entries of its own, and of arrays that the writer does not have.
#![tactic(auto)]

ghost use Rattle.std.specs.Prelude.{◌<◌, length};
ghost use Rattle.rules.specs.Notation.{at};
ghost use Rattle.sheet_arrays.specs.Runs.{run};
ghost use Rattle.sheet_arrays.specs.Listed.{entries_of};
ghost use Rattle.sheet_put.specs.Put.{Put};
ghost use Rattle.sheet_rows.specs.Ready.{materials_of, limit_of, limits_of, RunReady, EntriesReady};

use rules::Shape;
use rules_arrays::Arrays;
use sheet_put::EntryWriter;

// The entries of figures under consecutive keys, from `first` on.
fn put_run(writer: &mut EntryWriter, first: usize, figures: &[i32])
    requires { RunReady first figures.now writer.old }
    ensures { Put (run first (length figures.now) (at figures.now)) writer.old writer.new }
{
    for (j, figure) in figures.iter().enumerate() {
        writer.put_figure(first + j, *figure);
    }
}

// The entries of the materials.
fn put_materials(writer: &mut EntryWriter, shape: Shape, arrays: &Arrays)
    requires { EntriesReady (materials_of shape arrays.now) shape arrays.now writer.old }
    ensures { Put (materials_of shape arrays.now) writer.old writer.new }
{
    put_run(writer, 0, arrays.costs);
    put_run(writer, 64, arrays.least_amounts);
    put_run(writer, 128, arrays.most_amounts);
}

// The entries of limit i.
fn put_limit(writer: &mut EntryWriter, shape: Shape, arrays: &Arrays, i: usize)
    requires ready { EntriesReady (limit_of shape arrays.now i) shape arrays.now writer.old }
    requires limit { i < shape.limits }
    ensures { Put (limit_of shape arrays.now i) writer.old writer.new }
{
    let n = shape.materials;
    let first = (3 + i) * 64;
    put_run(writer, first, &arrays.coefficients[n * i..n * i + n]);
    writer.put_figure(first + n, arrays.right_hand_sides[i]);
    writer.put_figure(first + (n + 1), arrays.starts[i]);
}

// The entries of the limits.
fn put_limits(writer: &mut EntryWriter, shape: Shape, arrays: &Arrays)
    requires { EntriesReady (limits_of shape arrays.now shape.limits) shape arrays.now writer.old }
    ensures { Put (limits_of shape arrays.now shape.limits) writer.old writer.new }
{
    for i in 0..shape.limits {
        put_limit(writer, shape, arrays, i);
    }
}

// All entries: those of the materials, and then those of the limits.
pub fn put_entries(writer: &mut EntryWriter, shape: Shape, arrays: &Arrays)
    requires { EntriesReady (entries_of shape arrays.now) shape arrays.now writer.old }
    ensures { Put (entries_of shape arrays.now) writer.old writer.new }
{
    put_materials(writer, shape, arrays);
    put_limits(writer, shape, arrays);
}
