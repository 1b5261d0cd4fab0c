// A direction, with what the reaches of the kinds need of it.
ghost use Rattle.std.specs.Prelude.{◌≡◌, ◌≤◌, map, unsigned_abs};
ghost use Rattle.hull.specs.Units.{direction_limit, squared};
ghost use Rattle.hull.specs.Weights.{box_weighting, many_weighting, divided};
ghost use Rattle.integers.specs.Roots.{root_up};

use super::face::FaceWeight;

#[derive(Clone, Copy)]
pub struct Direction {
    pub x: i64,
    pub y: i64,
    pub z: i64,
    // the weights of the direction on the faces of a box, and on all 26
    pub box_weights: [FaceWeight; 3],
    pub many_weights: [FaceWeight; 3],
    // the root of u·u, rounded up
    pub length: u32,
    ghost x_in: { unsigned_abs x ≤ direction_limit },
    ghost y_in: { unsigned_abs y ≤ direction_limit },
    ghost z_in: { unsigned_abs z ≤ direction_limit },
    ghost on_box: { box_weights ≡ map divided (box_weighting x y z) },
    ghost on_many: { many_weights ≡ map divided (many_weighting x y z) },
    ghost as_long: { length ≡ root_up (squared x y z) },
}
