// A sheet from figures in plain arrays into a lent buffer (TASK.md, T13).
#![tactic(auto)]

ghost use Rattle.std.specs.Prelude.{◌≡◌, length};
ghost use Rattle.rules.specs.Output.{Writes};
ghost use Rattle.rules_arrays.specs.Arrays.{sheet_from, write_refusal};
ghost use Rattle.rules_arrays.specs.ReadBack.{figures_present};
ghost use Rattle.bytes_write.specs.Written.{written};
ghost use Rattle.sheet_write.specs.Ready.{Short, SheetReady};

use rules::{Cause, Refusal, Sizes};
use rules_arrays::Arrays;
use sheet_array_checks::{check_arrays, present_in};
use sheet_put::{EntryWriter, put_sizes};
use sheet_rows::put_entries;

// How many figures are not 0. Six fields are added as they stand: an array of them with `map` and `sum` is no plainer.
fn count_entries(arrays: &Arrays) -> usize
    requires { Short arrays.now }
    ensures { result ≡ figures_present arrays.now }
{
    present_in(arrays.costs)
        + present_in(arrays.least_amounts)
        + present_in(arrays.most_amounts)
        + present_in(arrays.coefficients)
        + present_in(arrays.right_hand_sides)
        + present_in(arrays.starts)
}

// The sheet of e entries to the start of a buffer that takes it. What e counts is not the buffer's length.
fn put_sheet(sheet: &mut [u8], e: usize, sizes: Sizes, arrays: &Arrays)
    requires { SheetReady e sizes arrays.now sheet.old }
    ensures { sheet.new ≡ written (sheet_from sizes arrays.now) sheet.old }
{
    put_sizes(sheet, sizes, e);
    let mut writer = EntryWriter {
        sheet,
        entries: e,
        count: 0,
    };
    put_entries(&mut writer, sizes.shape, arrays);
}

// Writes the sheet of these sizes and figures: any numbers, into any buffer. It answers the length of the sheet, which
// stands at the start of the buffer before the rest as it was; or a refusal, with the buffer as it was.
pub fn write_sheet(sizes: Sizes, arrays: &Arrays, sheet: &mut [u8]) -> Result<usize, Refusal>
    ensures { Writes (sheet_from sizes arrays.now)
        (write_refusal sizes arrays.now (length sheet.old))
        sheet.old sheet.new result }
{
    check_arrays(sizes, arrays)?;
    let e = count_entries(arrays);
    let wanted = 12 + 6 * e;
    if sheet.len() < wanted {
        return Err(Cause::Buffer.at(wanted));
    }
    put_sheet(sheet, e, sizes, arrays);
    Ok(wanted)
}
