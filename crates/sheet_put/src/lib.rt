// Sizes and entries of a sheet into a lent buffer.
#![tactic(auto)]

ghost use Rattle.std.specs.Prelude.{◌≡◌};
ghost use Rattle.bytes_write.specs.Written.{written};
ghost use Rattle.bytes_write.specs.Number.{Room};
ghost use Rattle.sheet_arrays.specs.Runs.{entry};
ghost use Rattle.sheet_arrays.specs.Laid.{size_bytes};
ghost use Rattle.sheet_put.specs.Put.{Put};
ghost use Rattle.sheet_put.specs.Ready.{FigureReady};

use bytes_write::{put_signed, put_unsigned};
use rules::Sizes;

// The six sizes of a sheet of e entries. What e counts is not the buffer's length: it stands in the sheet.
// To u64 by `as`, since usize has no `From` to it, and a `TryFrom` that cannot fail is no plainer.
pub fn put_sizes(sheet: &mut [u8], sizes: Sizes, e: usize)
    requires { Room 0 12 sheet.old }
    ensures { sheet.new ≡ written (size_bytes sizes e) sheet.old }
{
    let shape = sizes.shape;
    put_unsigned(sheet, 0, 2, shape.materials as u64);
    put_unsigned(sheet, 2, 2, shape.limits as u64);
    put_unsigned(sheet, 4, 2, e as u64);
    put_unsigned(sheet, 6, 2, sizes.numerator as u64);
    put_unsigned(sheet, 8, 2, sizes.scale as u64);
    put_unsigned(sheet, 10, 2, sizes.steps as u64);
}

// Puts entries into the buffer of a sheet that has so many `entries`: their keys stand from 12 on, and their values
// from 12 + 2 `entries` on. `count` is how many are put already.
#[derive(Drop)]
pub struct EntryWriter<'a> {
    pub sheet: &'a mut [u8],
    pub entries: usize,
    pub count: usize,
}

impl EntryWriter<'_> {
    // The entry of a figure under its key. A figure of 0 has none.
    pub fn put_figure(&mut self, key: usize, figure: i32)
        requires { FigureReady key figure self.old }
        ensures { Put (entry key figure) self.old self.new }
    {
        if figure == 0 {
            return;
        }
        put_unsigned(self.sheet, 12 + 2 * self.count, 2, key as u64);
        put_signed(
            self.sheet,
            12 + 2 * self.entries + 4 * self.count,
            4,
            i64::from(figure),
        );
        self.count += 1;
    }
}
