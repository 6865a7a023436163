// The pass that stores the entries of a sheet whose keys are good. Refusal 6.
#![tactic(auto)]

ghost use Rattle.std.specs.Prelude.{◌≡◌};
ghost use Rattle.rules.specs.Sheet.{sheet_of, value_under};
ghost use Rattle.rules.specs.Refusals.{refusal_of, value_refusal};
ghost use Rattle.sheet_table.specs.Tabled.{tabled};
ghost use Rattle.sheet_store.specs.Values.{ReadyToStore, stored_by};

use bytes_read::{signed_32, size_at};
use rules::{Cause, Refusal};
use sheet_entries::read_entry;
use sheet_header::Header;
use sheet_table::{Table, place_at};

// Refusal 6: the first entry whose value is bad. The values of the entries before it are stored, each under its key.
// No key is bad here: where an entry is refused, its value is.
pub fn store_entries(s: &[u8], header: Header, table: &mut Table) -> Result<(), Refusal>
    requires { ReadyToStore s.now header table.old }
    ensures result_value { refusal_of result ≡ value_refusal (sheet_of s.now) }
    ensures table_after { table.new
        ≡ tabled (value_under (sheet_of s.now) (stored_by result header.entries)) }
{
    let sizes = header.sizes;
    let shape = sizes.shape;
    let keys = header.length;
    let e = header.entries;
    for i in 0..e {
        let key = size_at(s, keys + 2 * i);
        let Ok(value) = read_entry(shape, key, signed_32(s, keys + 2 * e + 4 * i)) else {
            return Err(Cause::Value.at(i));
        };
        let at = place_at(key / 64, key % 64);
        table[at] = value;
    }
    Ok(())
}
