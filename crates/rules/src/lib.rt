// The types that the definitions of specs/ and the code above share. What they mean is said in specs/.
#![tactic(auto)]

ghost use Rattle.std.specs.Prelude.{◌≡◌};
ghost use Rattle.rules.specs.Refusals.{number_of};

// Why a refusal is given, each cause with its number in the table of refusals (TASK.md, T7.4).
#[derive(Clone, Copy)]
pub enum Cause {
    Short = 1,
    Dimensions = 2,
    Length = 3,
    Parameters = 4,
    Key = 5,
    Value = 6,
    Bounds = 7,
    Buffer = 8,
    Infeasible = 9,
    Diverged = 10,
    Text = 11,
}

// The number of a refusal.
impl From<Cause> for usize {
    ghost from_gives = { λ cause number. number ≡ number_of cause };

    #[tactic(auto, unfolding(crate::specs::Refusals::number_of))]
    fn from(cause: Cause) -> usize {
        cause as usize
    }
}

// A refusal: its place, and the cause that it names.
// It is the error of all that can be refused: a test, whose result is `Result<(), Refusal>`; a function that writes to
// a lent buffer, whose result is how many bytes it wrote; and a plan.
#[derive(Clone, Copy)]
pub struct Refusal {
    pub place: usize,
    pub cause: Cause,
}

impl Cause {
    // The refusal for this cause, at a place.
    pub fn at(self, place: usize) -> Refusal
        ensures { result ≡ record { place = place; cause = self } }
    {
        Refusal { place, cause: self }
    }
}

// The figures of a plan that an answer gives.
#[derive(Clone, Copy)]
pub struct PlanFigures {
    pub low: i64,
    pub gap: i64,
}

// The shape of a sheet: n and m, how many materials and limits there are.
#[derive(Clone, Copy)]
pub struct Shape {
    pub materials: usize,
    pub limits: usize,
}

// The sizes of a sheet without e: its shape, and p, D and k.
#[derive(Clone, Copy)]
pub struct Sizes {
    pub shape: Shape,
    pub numerator: usize,
    pub scale: usize,
    pub steps: usize,
}

// What a figure of the sheet is, in the order of the table of ranges (TASK.md, T3.2).
#[derive(Clone, Copy)]
pub enum Kind {
    Cost,
    Least,
    Most,
    Coefficient,
    Rhs,
    Start,
}

// A row of the table of ranges: a kind of figure, its least and its greatest value.
#[derive(Clone, Copy)]
pub struct Range {
    pub kind: Kind,
    pub least: i32,
    pub greatest: i32,
}
