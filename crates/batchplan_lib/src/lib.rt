// What C and Rust call: planning a sheet on byte slices and numbers, with no type of Rattle's.
// `batchplan_lib_c` exports these functions, and `library/include/batchplan.h` declares them for C.
#![tactic(auto)]

ghost use Rattle.std.specs.Prelude.{◌≤◌, ◌≡◌, length};
ghost use Rattle.rules.specs.Sheet.{sized};
ghost use Rattle.rules.specs.Record.{longest_record};
ghost use Rattle.rules.specs.Answers.{outcome};
ghost use Rattle.rules.specs.Listing.{listing, Listed};
ghost use Rattle.rules.specs.Output.{writing};
ghost use Rattle.rules.specs.Version.{version};
ghost use Rattle.rules_arrays.specs.Arrays.{arrays};
ghost use Rattle.batchplan_lib.specs.Called.{numbers_of, Called};
ghost use Rattle.batchplan_lib.specs.Wrote.{pair_of, Wrote};
ghost use Rattle.batchplan_lib.specs.WroteText.{WroteText};

use out_layout::LONGEST;
use out_listing::write_listing;
use out_mps::write_mps;
use planner::plan;
use rules::{PlanFigures, Refusal, Shape, Sizes};
use rules_arrays::Arrays;
use sheet_write::write_sheet;

// The version of the rules that this library follows.
const VERSION: usize = 3;

// An answer in plain numbers, as C takes it.
#[derive(Drop)]
struct Numbers {
    // 0 for a plan
    number: usize,
    place: usize,
    low: i64,
    gap: i64,
}

// The numbers of an answer. Those that it does not have are 0.
impl From<Result<PlanFigures, Refusal>> for Numbers {
    ghost from_gives = { λ answer numbers. numbers ≡ numbers_of (outcome answer) };

    #[tactic(auto, unfolding(rules::specs::Answers::outcome, rules::specs::Refusals::numbered))]
    fn from(answer: Result<PlanFigures, Refusal>) -> Numbers {
        match answer {
            Ok(plan) => Numbers {
                number: 0,
                place: 0,
                low: plan.low,
                gap: plan.gap,
            },
            Err(refusal) => Numbers {
                number: usize::from(refusal.cause),
                place: refusal.place,
                low: 0,
                gap: 0,
            },
        }
    }
}

// What writing gives, in plain numbers, as C takes it: 0 and the length, or the number of the refusal and its place.
#[derive(Drop)]
struct Pair {
    number: usize,
    // the length, or the place
    beside: usize,
}

// The numbers of what writing gives.
impl From<Result<usize, Refusal>> for Pair {
    ghost from_gives = { λ output pair. pair ≡ pair_of (writing output) };

    #[tactic(auto, unfolding(rules::specs::Output::writing, rules::specs::Refusals::numbered))]
    fn from(output: Result<usize, Refusal>) -> Pair {
        match output {
            Ok(length) => Pair {
                number: 0,
                beside: length,
            },
            Err(refusal) => Pair {
                number: usize::from(refusal.cause),
                beside: refusal.place,
            },
        }
    }
}

// Plans a sheet (TASK.md, T10.3): any bytes, into any buffer. It answers 0 for a plan, with its low and gap and its
// record at the start of the buffer, and else the number of the refusal, with its place and the buffer as it was.
pub fn batchplan_plan(
    sheet: &[u8],
    record: &mut [u8],
    place: &mut usize,
    low: &mut i64,
    gap: &mut i64,
) -> usize
    ensures { Called sheet.now «record».old «record».new
        result place.new low.new gap.new }
{
    let numbers = Numbers::from(plan(sheet, record));
    *place = numbers.place;
    *low = numbers.low;
    *gap = numbers.gap;
    numbers.number
}

// Plans a sheet, any bytes, and writes its listing to the start of `text` (TASK.md, T10.4). It answers the listing's
// length. Where the listing is longer than `text`, nothing is written and the answer is 0; a listing has at most 4,096
// bytes (T8.4). The buffer takes every record, so that refusal 8 is never listed (T10.2).
pub fn batchplan_listing(sheet: &[u8], text: &mut [u8]) -> usize
    ensures listed { Listed (listing sheet.now longest_record) text.old text.new result }
    ensures bounded { length (listing sheet.now longest_record) ≤ 4096 }
{
    let mut record = [0u8; LONGEST];
    let answer = plan(sheet, &mut record);
    write_listing(answer, &record, text)
}

// Writes the sheet of plain arrays (TASK.md, T10.6): any numbers, into any buffer. It answers 0, with the length of the
// sheet beside it and the sheet at the start of the buffer; and else the number of the refusal, with its place and the
// buffer as it was. Its parameters are those of the C interface.
pub fn batchplan_write_sheet(
    n: usize,
    m: usize,
    p: usize,
    d: usize,
    k: usize,
    cost: &[i32],
    least: &[i32],
    most: &[i32],
    a: &[i32],
    b: &[i32],
    start: &[i32],
    sheet: &mut [u8],
    length_or_place: &mut usize,
) -> usize
    ensures { Wrote (sized n m p d k) (arrays cost.now least.now most.now a.now b.now start.now)
        sheet.old sheet.new result length_or_place.new }
{
    let shape = Shape {
        materials: n,
        limits: m,
    };
    let sizes = Sizes {
        shape,
        numerator: p,
        scale: d,
        steps: k,
    };
    let arrays = Arrays {
        costs: cost,
        least_amounts: least,
        most_amounts: most,
        coefficients: a,
        right_hand_sides: b,
        starts: start,
    };
    let pair = Pair::from(write_sheet(sizes, &arrays, sheet));
    *length_or_place = pair.beside;
    pair.number
}

// Writes the free MPS text of a sheet (TASK.md, T10.7): any bytes, into any buffer. It answers 0, with the length of
// the text beside it and the text at the start of the buffer; and else the number of the refusal, with its place and
// the buffer as it was.
pub fn batchplan_mps(sheet: &[u8], text: &mut [u8], length_or_place: &mut usize) -> usize
    ensures { WroteText sheet.now text.old text.new result length_or_place.new }
{
    let told = Pair::from(write_mps(sheet, text));
    *length_or_place = told.beside;
    told.number
}

// The version of the rules, by which a caller can tell a library that it was not written for (TASK.md, T10.5).
pub fn batchplan_version() -> usize
    ensures { result ≡ version }
{
    VERSION
}
