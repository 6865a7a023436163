// The table of a sheet's figures by key, in one array of 19 rows of 34 columns.
#![tactic(auto)]

ghost use Rattle.std.specs.Prelude.{◌≡◌};
ghost use Rattle.sheet_table.specs.Tabled.{InTable, place_at};

// The array. It is no struct with methods: that would hold this array alone, and each contract would name its field
// where `table_in` and `tabled` name the array. And it is no map: there is no heap.
pub type Table = [i32; 646];

// Where the figure at a row and a column stands.
pub fn place_at(row: usize, column: usize) -> usize
    requires { InTable row column }
    ensures { result ≡ place_at row column }
{
    34 * row + column
}
