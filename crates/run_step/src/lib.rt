// One step of the dual subgradient method with a constant step, on a state by value.
#![tactic(auto)]

ghost use Rattle.std.specs.Prelude.{◌≡◌, suc};
ghost use Rattle.rules.specs.Answers.{refusal_at};
ghost use Rattle.sheet_figures.specs.Figures.{problem_of};
ghost use Rattle.run_step.specs.States.{reached_in, HandedBack};
ghost use Rattle.run_step.specs.Reached.{LookReady};
ghost use Rattle.run_step.specs.Looked.{LookAsks, Looked};

use rules::{Cause, Refusal};
use run_look::look_at;
use run_moves::move_multipliers;
use run_totals::add;
use sheet_figures::Figures;

// The state of the run, in arrays of fixed lengths as `Figures` has them: there is no heap.
#[derive(Clone, Copy)]
pub struct State {
    // M_i at place i
    pub multipliers: [i32; 16],
    // sum j at place j
    pub sums: [i32; 32],
    // residual total i at place i
    pub totals: [i64; 16],
    // low so far, and in the end with the closing value
    pub low: i64,
}

// What a step hands back: the whole state, and beside it the stop. Tried as `Result<State, Stop>`: each step took 25 ns
// longer, since the compiler then moves the state word by word.
#[derive(Clone, Copy)]
pub struct Stepped {
    pub stop: Result<(), Refusal>,
    pub state: State,
}

impl State {
    // A stop, which hands the state back as it was.
    fn stopped(self, refusal: Refusal) -> Stepped
        ensures { result ≡ record { stop = Err refusal; state = self } }
    {
        Stepped {
            stop: Err(refusal),
            state: self,
        }
    }

    // The look at the multipliers after t steps, with D times the greatest cost: the dual value or refusal 9. The
    // amounts and the residuals go into two lent arrays of zeros. A struct of all three by value was tried: it is
    // copied right after its single stores, which makes each step some 50 ns slower.
    pub fn look(
        &self,
        f: &Figures,
        coefficient: &[i16; 512],
        greatest: i64,
        t: usize,
        amounts: &mut [i16; 32],
        residuals: &mut [i32; 16],
    ) -> Result<i64, Refusal>
        requires { LookAsks f.now coefficient.now greatest t self.now amounts.old residuals.old }
        ensures { Looked (problem_of f.now coefficient.now) t amounts.new residuals.new result }
    {
        let value = look_at(f, coefficient, &self.multipliers, amounts, residuals);
        if greatest < value {
            return Err(Cause::Infeasible.at(t));
        }
        Ok(value)
    }

    // Step t, with D times the greatest cost: the look at the multipliers and its refusal 9, the move and its
    // refusal 10, then the sums and the totals.
    pub fn step(self, f: &Figures, coefficient: &[i16; 512], greatest: i64, t: usize) -> Stepped
        requires { LookReady f.now coefficient.now greatest t self }
        ensures { HandedBack (problem_of f.now coefficient.now)
            (reached_in (problem_of f.now coefficient.now) (suc t))
            (refusal_at (problem_of f.now coefficient.now) t) result }
    {
        let mut amounts = [0; 32];
        let mut residuals = [0; 16];
        let value = match self.look(f, coefficient, greatest, t, &mut amounts, &mut residuals) {
            Ok(value) => value,
            Err(refusal) => return self.stopped(refusal),
        };
        let mut next = self;
        if move_multipliers(f, &mut next.multipliers, &residuals) {
            return self.stopped(Cause::Diverged.at(t));
        }
        add(f.materials, &mut next.sums, &amounts);
        add(f.limits, &mut next.totals, &residuals);
        next.low = self.low.max(value);
        Stepped {
            stop: Ok(()),
            state: next,
        }
    }
}
