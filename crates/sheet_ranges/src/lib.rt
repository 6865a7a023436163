// The table of ranges, a constant. Whoever reads, writes or edits a sheet consults it.
#![tactic(auto)]

ghost use Rattle.std.specs.Prelude.{◌≡◌};
ghost use Rattle.rules.specs.Ranges.{range_of, in_range};

use rules::{Kind, Range};

// The table, in the order of T3.2.
const RANGES: [Range; 6] = [
    // row 0: cost
    Range {
        kind: Kind::Cost,
        least: -10000,
        greatest: 10000,
    },
    // row 1: least amount
    Range {
        kind: Kind::Least,
        least: 1,
        greatest: 1000,
    },
    // row 2: most amount
    Range {
        kind: Kind::Most,
        least: 1,
        greatest: 1000,
    },
    // the rows of the limits, columns below n: coefficient
    Range {
        kind: Kind::Coefficient,
        least: -1000,
        greatest: 1000,
    },
    // the rows of the limits, column n: right-hand side
    Range {
        kind: Kind::Rhs,
        least: -32000000,
        greatest: 32000000,
    },
    // the rows of the limits, column n + 1: start
    Range {
        kind: Kind::Start,
        least: 1, // a start of 0 has no entry
        greatest: 1073741824,
    },
];

// The range of a kind of figure: an entry of the table, which has the kinds in their order.
#[tactic(auto, unfolding(rules::specs::Ranges::ranges, rules::specs::Ranges::index_of, rules::specs::Ranges::range_of))]
fn range_of(kind: Kind) -> Range
    ensures { result ≡ range_of kind }
{
    RANGES[kind as usize]
}

// Whether a value lies in the range of its kind: two comparisons, which two edits change, and not `contains`.
pub fn in_range(kind: Kind, value: i32) -> bool
    ensures { result ≡ in_range (range_of kind) value }
{
    let range = range_of(kind);
    let least = range.least;
    let greatest = range.greatest;
    (least <= value) & (value <= greatest)
}
