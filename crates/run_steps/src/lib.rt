// The run: k steps from the starting multipliers and the closing look, or refusals 9 and 10.
#![tactic(auto)]

ghost use Rattle.rules.specs.Answers.{run_refusal};
ghost use Rattle.sheet_figures.specs.Figures.{problem_of};
ghost use Rattle.run_step.specs.Reached.{FiguresReady};
ghost use Rattle.run_step.specs.States.{closed_in, HandedBack};

use run_close::close;
use run_costs::{cheapest_value, greatest_value};
use run_step::{State, Stepped};
use sheet_figures::Figures;

// All steps, from the starting multipliers and D times the cheapest cost as low, and then the closing look.
pub fn run(f: &Figures, coefficient: &[i16; 512]) -> Stepped
    requires { FiguresReady f.now coefficient.now }
    ensures { HandedBack (problem_of f.now coefficient.now)
        (closed_in (problem_of f.now coefficient.now) f.now.steps)
        (run_refusal (problem_of f.now coefficient.now) f.now.steps) result }
{
    let greatest = greatest_value(f);
    let low = cheapest_value(f);
    let mut r = Stepped {
        stop: Ok(()),
        state: State {
            multipliers: f.start,
            sums: [0; 32],
            totals: [0; 16],
            low,
        },
    };
    for t in 0..f.steps {
        let w = r.state;
        r = w.step(f, coefficient, greatest, t);
        let stop = r.stop;
        let Ok(()) = stop else {
            return r;
        };
    }
    let last = r.state;
    close(last, f, coefficient, greatest, f.steps)
}
