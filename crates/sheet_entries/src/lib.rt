// One entry of a sheet: its key and its value.
#![tactic(auto)]

ghost use Rattle.std.specs.Prelude.{◌≡◌};
ghost use Rattle.sheet_entries.specs.KeyRead.{key_answered, key_read};
ghost use Rattle.sheet_entries.specs.EntryRead.{entry_answered, entry_read};

use rules::{Cause, Shape};
use sheet_kinds::meaning_at;
use sheet_ranges::in_range;

// A key, or none where it is bad (refusal 5). `floor` is the least that it may be: one more than the key before, if
// there is one, and else 0.
pub fn read_key(shape: Shape, floor: usize, key: usize) -> Option<usize>
    ensures { key_answered result ≡ key_read shape floor key }
{
    meaning_at(shape, key / 64, key % 64)?;
    if key < floor {
        return None;
    }
    Some(key)
}

// The value of an entry, or why it is refused: 5 where its key names no figure, and 6 where its value is 0 or outside
// its range.
pub fn read_entry(shape: Shape, key: usize, value: i32) -> Result<i32, Cause>
    ensures { entry_answered result ≡ entry_read shape key value }
{
    let row = key / 64;
    let column = key % 64;
    let Some(kind) = meaning_at(shape, row, column) else {
        return Err(Cause::Key);
    };
    if value == 0 {
        return Err(Cause::Value);
    }
    if !in_range(kind, value) {
        return Err(Cause::Value);
    }
    Ok(value)
}
