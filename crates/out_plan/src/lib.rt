// The text of the plan that a record holds (T8.1).
#![tactic(auto)]

ghost use Rattle.std.specs.Prelude.{cond, []};
ghost use Rattle.rules.specs.Record.{recorded, holds_record};
ghost use Rattle.rules.specs.Listing.{plan_text};
ghost use Rattle.out_text.specs.Text.{Puts};
ghost use Rattle.out_lines.specs.Lines.{Begins};
ghost use Rattle.out_plan.specs.RecordText.{WholeRecord};

use bytes_read::size_at;
use out_layout::{GAP_AT, LIMITS_AT, LOW_AT, SUMS_AT, multipliers_at, record_length, totals_at};
use out_rows::{put_limits, put_materials};
use out_text::Text;
use out_values::{put_steps, put_value};

// The lines of a plan, as the whole of a text. It answers the text's length.
#[tactic(auto, unfolding(rules::specs::Record::record_length))]
fn put_plan(out: &mut [u8], record: &[u8], n: usize, m: usize) -> usize
    requires { WholeRecord «record».now n m }
    ensures { Puts (plan_text (recorded «record».now)) out.old 0 out.new result }
{
    let mut text = Text { bytes: out, end: 0 };
    put_steps(&mut text, record);
    put_materials(&mut text, record, n);
    put_limits(&mut text, record, multipliers_at(n), totals_at(n, m), m);
    put_value(&mut text, b"low", record, LOW_AT);
    put_value(&mut text, b"gap", record, GAP_AT);
    text.end
}

// The lines of the plan that a record holds, as the whole of a text, or none where the bytes hold no record.
// It answers the text's length: 0 is that of no text, as its contract says, and no sign of a refusal.
pub fn put_record(out: &mut [u8], record: &[u8]) -> usize
    ensures { Begins
        (cond (holds_record «record».now) (plan_text (recorded «record».now)) [])
        out.old out.new result }
{
    if record.len() < SUMS_AT {
        return 0;
    }
    let n = size_at(record, 0);
    let m = size_at(record, LIMITS_AT);
    if 32 < n {
        return 0;
    }
    if 16 < m {
        return 0;
    }
    if record.len() < record_length(n, m) {
        return 0;
    }
    put_plan(out, record, n, m)
}
