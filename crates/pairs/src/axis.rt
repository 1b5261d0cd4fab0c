// The axes along which two hulls are compared.
ghost use Rattle.std.specs.Prelude.{◌≤◌, unsigned_abs};

use hull::Direction;

// An axis by its entries, none beyond a limit in size. A corner has such entries too, but it is a point and no direction, and a type of
// its own keeps the two apart.
#[derive(Clone, Copy)]
pub struct BoundedAxis<const LIMIT: u16> {
    pub x: i16,
    pub y: i16,
    pub z: i16,
    ghost x_in: { unsigned_abs x ≤ LIMIT },
    ghost y_in: { unsigned_abs y ≤ LIMIT },
    ghost z_in: { unsigned_abs z ≤ LIMIT },
}

const AXIS_LIMIT: u16 = 768;

const FIXED_LIMIT: u16 = 1;

// An axis of a placement.
pub type Axis = BoundedAxis<AXIS_LIMIT>;

// An axis that is the same under every placement.
pub type FixedAxis = BoundedAxis<FIXED_LIMIT>;

// What a test along an axis needs: the directions of the moved hull and of the standing one, up and down the axis, and the shift
// along it.
#[derive(Clone, Copy)]
pub struct SeparatingAxis {
    pub moved_up: Direction,
    pub moved_down: Direction,
    pub standing_up: Direction,
    pub standing_down: Direction,
    pub shift: i64,
}
