// The ranges of the sizes: n, m and e, and p, D and k. Whoever reads, writes or edits a sheet consults these.
#![tactic(auto)]

ghost use Rattle.std.specs.Prelude.{◌≡◌};
ghost use Rattle.rules.specs.Ranges.{between, dimensions_in_range, parameters_in_range};

use rules::{Shape, Sizes};

// Whether a size lies from its least to its greatest. Compared as the definition has it: the library's `contains` of a
// range speaks of an order (`partial_le`), and is no plainer to prove from.
#[tactic(auto, unfolding(rules::specs::Ranges::between))]
fn between(least: usize, greatest: usize, size: usize) -> bool
    ensures { result ≡ between least greatest size }
{
    (least <= size) & (size <= greatest)
}

// Whether n, m and e lie in their ranges. The product is formed where n and m do. It answers of any shape, so that a
// `Shape` has no invariant.
pub fn dimensions_in_range(shape: Shape, e: usize) -> bool
    ensures { result ≡ dimensions_in_range shape e }
{
    let n = shape.materials;
    let m = shape.limits;
    if between(1, 32, n) & between(0, 16, m) {
        return e <= n * (m + 3) + 2 * m;
    }
    false
}

// Whether p, D and k lie in their ranges.
pub fn parameters_in_range(sizes: Sizes) -> bool
    ensures { result ≡ parameters_in_range sizes }
{
    let p = sizes.numerator;
    let d = sizes.scale;
    let k = sizes.steps;
    between(1, 1024, p) & between(1, 1024, d) & between(1, 4096, k)
}
