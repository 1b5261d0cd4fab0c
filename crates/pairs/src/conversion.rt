// A fixed axis as one of a placement.
ghost use Rattle.std.specs.Prelude.{◌≡◌};
ghost use Rattle.pairs.specs.Axes.{as_axis};

use super::axis::{Axis, FixedAxis};

impl From<FixedAxis> for Axis {
    ghost from_gives = { λ a l. l ≡ as_axis a };

    fn from(a: FixedAxis) -> Axis {
        Axis {
            x: a.x,
            y: a.y,
            z: a.z,
        }
    }
}
