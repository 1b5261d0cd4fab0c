// The axes of a placement, ready for tests.
ghost use Rattle.std.specs.Prelude.{◌≡◌};
ghost use Rattle.pairs.specs.Gaps.{separating_axes};

use pairs::SeparatingAxis;
use placement::Placement;

// A placement has so many axes.
pub const AXIS_COUNT: usize = 26;

#[derive(Clone, Copy)]
pub struct Axes {
    pub placement: Placement,
    pub each: [SeparatingAxis; AXIS_COUNT],
    ghost are_its: { each ≡ separating_axes placement },
}
