// A sheet's bytes to its figures, or to refusals 1 to 7.
#![tactic(auto)]

ghost use Rattle.rules.specs.Sheet.{sheet_of};
ghost use Rattle.rules.specs.Refusals.{layout_refusal};
ghost use Rattle.sheet_checks.specs.Keys.{Keyed};
ghost use Rattle.sheet_read.specs.Reading.{Reads, figures_refusal};

use rules::{Cause, Refusal};
use sheet_checks::{check_bounds, check_keys};
use sheet_figures::Figures;
use sheet_header::{Header, check_header, read_header};
use sheet_store::store_entries;
use sheet_table::Table;
use sheet_unpack::unpack;

// The figures, or refusal 6 or 7.
fn read_figures(s: &[u8], header: Header, coefficient: &mut [i16; 512]) -> Result<Figures, Refusal>
    requires { Keyed s.now header }
    ensures { Reads (sheet_of s.now) (figures_refusal (sheet_of s.now))
        coefficient.old coefficient.new result }
{
    let mut table: Table = [0; 646];
    store_entries(s, header, &mut table)?;
    let sizes = header.sizes;
    let shape = sizes.shape;
    check_bounds(shape.materials, &table)?;
    Ok(unpack(sizes, &table, coefficient))
}

// Reads a sheet. Its coefficients go to a lent array, which stays as lent where the sheet is refused.
pub fn read_sheet(s: &[u8], coefficient: &mut [i16; 512]) -> Result<Figures, Refusal>
    ensures { Reads (sheet_of s.now) (layout_refusal s.now)
        coefficient.old coefficient.new result }
{
    let Some(header) = read_header(s) else {
        return Err(Cause::Short.at(0));
    };
    check_header(s, header)?;
    check_keys(s, header)?;
    read_figures(s, header, coefficient)
}
