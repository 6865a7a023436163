// The end of a run: the closing look, at the multipliers that the last step leaves, with no step more.
#![tactic(auto)]

ghost use Rattle.rules.specs.Answers.{look_refusal};
ghost use Rattle.sheet_figures.specs.Figures.{problem_of};
ghost use Rattle.run_step.specs.States.{closed_in, HandedBack};
ghost use Rattle.run_step.specs.Reached.{LookReady};

use run_step::{State, Stepped};
use sheet_figures::Figures;

// Closes a run of `count` steps, with D times the greatest cost: the look at the multipliers and its refusal 9, then
// low with its dual value (T5.8). Multipliers, sums and totals stay.
pub fn close(
    w: State,
    f: &Figures,
    coefficient: &[i16; 512],
    greatest: i64,
    count: usize,
) -> Stepped
    requires { LookReady f.now coefficient.now greatest count w }
    ensures { HandedBack (problem_of f.now coefficient.now)
        (closed_in (problem_of f.now coefficient.now) count)
        (look_refusal (problem_of f.now coefficient.now) count) result }
{
    let mut amounts = [0; 32];
    let mut residuals = [0; 16];
    let value = match w.look(
        f,
        coefficient,
        greatest,
        count,
        &mut amounts,
        &mut residuals,
    ) {
        Ok(value) => value,
        Err(refusal) => {
            return Stepped {
                stop: Err(refusal),
                state: w,
            };
        }
    };
    let mut closed = w;
    closed.low = w.low.max(value);
    Stepped {
        stop: Ok(()),
        state: closed,
    }
}
