// Plans a sheet: its bytes and a lent buffer to the answer, with the record in the buffer.
#![tactic(auto)]

ghost use Rattle.std.proofs.Math.Option.{none};
ghost use Rattle.std.specs.Prelude.{length};
ghost use Rattle.rules.specs.Run.{plan_after};
ghost use Rattle.rules.specs.Answers.{run_refusal, plan_refusal};
ghost use Rattle.rules.specs.Promise.{Promise};
ghost use Rattle.sheet_figures.specs.Figures.{problem_of};
ghost use Rattle.run_step.specs.Reached.{FiguresReady};
ghost use Rattle.planner.specs.Finish.{Ends, RunReady, plan_with, WriteReady};

use out_layout::record_length;
use out_record::{Head, write_record};
use rules::{Cause, PlanFigures, Refusal};
use run_costs::gap;
use run_step::State;
use run_steps::run;
use sheet_figures::Figures;
use sheet_read::read_sheet;

// The record and the answer of a run that came to its end.
fn write_plan(f: &Figures, state: &State, record: &mut [u8]) -> Result<PlanFigures, Refusal>
    requires { WriteReady f.now state.now «record».old }
    ensures { Ends (plan_with f.now state.now) none «record».old «record».new result }
{
    let low = state.low;
    let gap = gap(f, &state.sums, low);
    let head = Head {
        materials: f.materials,
        limits: f.limits,
        steps: f.steps,
        low,
        gap: gap,
    };
    write_record(record, head, &state.sums, &state.multipliers, &state.totals);
    Ok(PlanFigures { low, gap })
}

// The run of a sheet's figures, in a buffer that can take the record.
fn plan_run(
    f: &Figures,
    coefficient: &[i16; 512],
    record: &mut [u8],
) -> Result<PlanFigures, Refusal>
    requires { RunReady f.now coefficient.now «record».old }
    ensures { Ends (plan_after (problem_of f.now coefficient.now) f.now.steps)
        (run_refusal (problem_of f.now coefficient.now) f.now.steps)
        «record».old «record».new result }
{
    let ran = run(f, coefficient);
    ran.stop?;
    write_plan(f, &ran.state, record)
}

// The plan of a sheet's figures, or refusals 8 to 10.
fn plan_figures(
    f: &Figures,
    coefficient: &[i16; 512],
    record: &mut [u8],
) -> Result<PlanFigures, Refusal>
    requires { FiguresReady f.now coefficient.now }
    ensures { Ends (plan_after (problem_of f.now coefficient.now) f.now.steps)
        (plan_refusal (problem_of f.now coefficient.now) f.now.steps (length «record».old))
        «record».old «record».new result }
{
    let wanted = record_length(f.materials, f.limits);
    if record.len() < wanted {
        return Err(Cause::Buffer.at(wanted));
    }
    plan_run(f, coefficient, record)
}

// Plans a sheet: any bytes, into any buffer. The answer is a plan's low and gap, with its record at the start of the
// buffer, or a refusal, with the buffer as it was.
// In the contract `sheet.now` is the sheet's bytes; `record.old` is what the buffer holds when the function is called,
// and `record.new` when it returns.
pub fn plan(sheet: &[u8], record: &mut [u8]) -> Result<PlanFigures, Refusal>
    ensures { Promise sheet.now «record».old «record».new result }
{
    let mut a: [i16; 512] = [0; 512];
    let figures = read_sheet(sheet, &mut a)?;
    plan_figures(&figures, &a, record)
}
