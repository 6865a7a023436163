// The checks of a sheet that store nothing: its keys, and its bounds once they are stored. Refusals 5 and 7.
#![tactic(auto)]

ghost use Rattle.std.specs.Prelude.{◌≡◌};
ghost use Rattle.rules.specs.Sheet.{sheet_of};
ghost use Rattle.rules.specs.Refusals.{refusal_of, key_refusal};
ghost use Rattle.sheet_header.specs.Header.{Headed};
ghost use Rattle.sheet_checks.specs.Bounds.{FewMaterials, crossed_refusal};

use bytes_read::size_at;
use rules::{Cause, Refusal};
use sheet_entries::read_key;
use sheet_header::Header;
use sheet_table::{Table, place_at};

// Refusal 5: the first entry whose key is bad.
pub fn check_keys(s: &[u8], header: Header) -> Result<(), Refusal>
    requires { Headed s.now header }
    ensures { refusal_of result ≡ key_refusal (sheet_of s.now) }
{
    let sizes = header.sizes;
    let shape = sizes.shape;
    let keys = header.length;
    let e = header.entries;
    let mut floor: usize = 0;
    for i in 0..e {
        let Some(key) = read_key(shape, floor, size_at(s, keys + 2 * i)) else {
            return Err(Cause::Key.at(i));
        };
        floor = key + 1;
    }
    Ok(())
}

// Refusal 7: the first material whose least amount is above its most.
pub fn check_bounds(n: usize, table: &Table) -> Result<(), Refusal>
    requires { FewMaterials n }
    ensures { refusal_of result ≡ crossed_refusal n table.now }
{
    for j in 0..n {
        let least = table[place_at(1, j)];
        let most = table[place_at(2, j)];
        if most < least {
            return Err(Cause::Bounds.at(j));
        }
    }
    Ok(())
}
