// The listing of an answer (T8.1, T8.2): its text, out of the answer and its record.
#![tactic(auto)]

ghost use Rattle.std.specs.Prelude.{◌≤◌, length};
ghost use Rattle.rules.specs.Answers.{outcome};
ghost use Rattle.rules.specs.Listing.{text_from, Listed};
ghost use Rattle.out_lines.specs.Lines.{Begins};

use out_lines::put_refusal;
use out_plan::put_record;
use rules::{PlanFigures, Refusal};

// The room for a text. It takes every text.
const ROOM: usize = 4096;

// The text of an answer and its record.
fn put_answer(out: &mut [u8], answer: Result<PlanFigures, Refusal>, record: &[u8]) -> usize
    ensures { Begins (text_from (outcome answer) «record».now) out.old out.new result }
{
    match answer {
        Ok(_) => put_record(out, record),
        Err(refusal) => put_refusal(out, refusal),
    }
}

// Writes the text of an answer and its record to the start of `out`, and answers its length. A text has at most 4,096
// bytes. Where it is longer than `out`, or the answer is a plan and the record's bytes hold no record, nothing is
// written and the answer is 0, as C has it of `batchplan_listing` (`Listed`).
pub fn write_listing(answer: Result<PlanFigures, Refusal>, record: &[u8], out: &mut [u8]) -> usize
    ensures listed { Listed (text_from (outcome answer) «record».now)
        out.old out.new result }
    ensures record_len_bound { length (text_from (outcome answer) «record».now) ≤ 4096 }
{
    let mut space = [0u8; ROOM];
    let end = put_answer(&mut space, answer, record);
    if out.len() < end {
        return 0;
    }
    let text = &space[..end];
    out[..end].copy_from_slice(text);
    end
}
