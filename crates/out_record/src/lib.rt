// The record of a plan (T6.1) into a lent buffer.
#![tactic(auto)]

ghost use Rattle.std.specs.Prelude.{◌≡◌, ◌++◌, drop};
ghost use Rattle.rules.specs.Record.{sums_at, record_of, record_length};
ghost use Rattle.bytes_write.specs.Written.{written};
ghost use Rattle.bytes_write.specs.Number.{Room};
ghost use Rattle.out_record.specs.RecordParts.{head_bytes, plan_in, RecordRoom};

use bytes_write::{put_signed, put_unsigned};
use out_fields::put_figures;
use out_layout::{GAP_AT, LIMITS_AT, LOW_AT, STEPS_AT, SUMS_AT, multipliers_at, totals_at};

// What stands before the sums.
#[derive(Drop)]
pub struct Head {
    // n
    pub materials: usize,
    // m
    pub limits: usize,
    // k
    pub steps: usize,
    pub low: i64,
    pub gap: i64,
}

// n, m and k; low and gap.
// To u64 by `as`, since usize has no `From` to it, and a `TryFrom` that cannot fail is no plainer.
fn put_head(record: &mut [u8], head: Head)
    requires { Room 0 sums_at «record».old }
    ensures { «record».new ≡ written (head_bytes head) «record».old }
{
    put_unsigned(record, 0, 2, head.materials as u64);
    put_unsigned(record, LIMITS_AT, 2, head.limits as u64);
    put_unsigned(record, STEPS_AT, 2, head.steps as u64);
    put_signed(record, LOW_AT, 8, head.low);
    put_signed(record, GAP_AT, 8, head.gap);
}

// The record: its head, and then each array into what the buffer has after the one before.
#[tactic(auto, unfolding(rules::specs::Record::record_length))]
pub fn write_record(
    record: &mut [u8],
    head: Head,
    sums: &[i32; 32],
    multipliers: &[i32; 16],
    residual_totals: &[i64; 16],
)
    requires { RecordRoom head «record».old }
    ensures { «record».new
        ≡ record_of (plan_in head sums.now multipliers.now residual_totals.now)
        ++ drop (record_length head.materials head.limits) «record».old }
{
    let n = head.materials;
    let m = head.limits;
    put_head(record, head);
    put_figures(&mut record[SUMS_AT..], &sums[..n]);
    let after_sums = multipliers_at(n);
    put_figures(&mut record[after_sums..], &multipliers[..m]);
    let after_multipliers = totals_at(n, m);
    put_figures(&mut record[after_multipliers..], &residual_totals[..m]);
}
