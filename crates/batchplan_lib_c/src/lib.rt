// What C and Rust call, and nothing else: each function is that of `batchplan_lib`, with its promise.
// `library/include/batchplan.h` declares them for C. It stands apart, since an archive for C cannot be the library of
// another crate (docs/DECISIONS.md, section 7).
#![tactic(auto)]

ghost use Rattle.std.specs.Prelude.{◌≤◌, ◌≡◌, length};
ghost use Rattle.rules.specs.Sheet.{sized};
ghost use Rattle.rules.specs.Record.{longest_record};
ghost use Rattle.rules.specs.Listing.{listing, Listed};
ghost use Rattle.rules.specs.Version.{version};
ghost use Rattle.rules_arrays.specs.Arrays.{arrays};
ghost use Rattle.batchplan_lib.specs.Called.{Called};
ghost use Rattle.batchplan_lib.specs.Wrote.{Wrote};
ghost use Rattle.batchplan_lib.specs.WroteText.{WroteText};

// Plans a sheet (TASK.md, T10.3): any bytes, into any buffer. It answers 0 for a plan, with its low and gap and its
// record at the start of the buffer, and else the number of the refusal, with its place and the buffer as it was.
#[unsafe(no_mangle)]
pub extern "C" fn batchplan_plan(
    sheet: &[u8],
    record: &mut [u8],
    place: &mut usize,
    low: &mut i64,
    gap: &mut i64,
) -> usize
    ensures { Called sheet.now «record».old «record».new
        result place.new low.new gap.new }
{
    batchplan_lib::batchplan_plan(sheet, record, place, low, gap)
}

// Plans a sheet, any bytes, and writes its listing to the start of `text` (TASK.md, T10.4). It answers the listing's
// length. Where the listing is longer than `text`, nothing is written and the answer is 0; a listing has at most 4,096
// bytes (T8.4). The buffer takes every record, so that refusal 8 is never listed (T10.2).
#[unsafe(no_mangle)]
pub extern "C" fn batchplan_listing(sheet: &[u8], text: &mut [u8]) -> usize
    ensures listed { Listed (listing sheet.now longest_record) text.old text.new result }
    ensures bounded { length (listing sheet.now longest_record) ≤ 4096 }
{
    batchplan_lib::batchplan_listing(sheet, text)
}

// Writes the sheet of plain arrays (TASK.md, T10.6): any numbers, into any buffer. It answers 0, with the length of the
// sheet beside it and the sheet at the start of the buffer; and else the number of the refusal, with its place and the
// buffer as it was. The arrays come one by one, as C lends them.
#[unsafe(no_mangle)]
pub extern "C" fn batchplan_write_sheet(
    n: usize,
    m: usize,
    p: usize,
    d: usize,
    k: usize,
    cost: &[i32],
    least: &[i32],
    most: &[i32],
    a: &[i32],
    b: &[i32],
    start: &[i32],
    sheet: &mut [u8],
    length_or_place: &mut usize,
) -> usize
    ensures { Wrote (sized n m p d k) (arrays cost.now least.now most.now a.now b.now start.now)
        sheet.old sheet.new result length_or_place.new }
{
    batchplan_lib::batchplan_write_sheet(
        n,
        m,
        p,
        d,
        k,
        cost,
        least,
        most,
        a,
        b,
        start,
        sheet,
        length_or_place,
    )
}

// Writes the free MPS text of a sheet (TASK.md, T10.7): any bytes, into any buffer. It answers 0, with the length of
// the text beside it and the text at the start of the buffer; and else the number of the refusal, with its place and
// the buffer as it was.
#[unsafe(no_mangle)]
pub extern "C" fn batchplan_mps(sheet: &[u8], text: &mut [u8], length_or_place: &mut usize) -> usize
    ensures { WroteText sheet.now text.old text.new result length_or_place.new }
{
    batchplan_lib::batchplan_mps(sheet, text, length_or_place)
}

// The version of the rules, by which a caller can tell a library that it was not written for (TASK.md, T10.5).
#[unsafe(no_mangle)]
pub extern "C" fn batchplan_version() -> usize
    ensures { result ≡ version }
{
    batchplan_lib::batchplan_version()
}
