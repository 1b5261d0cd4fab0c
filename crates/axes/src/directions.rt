// The directions in which hulls are asked along an axis.
ghost use Rattle.std.specs.Prelude.{◌≡◌};
ghost use Rattle.hull.specs.Units.{direction_limit, Within};
ghost use Rattle.pairs.specs.Products.{dot};
ghost use Rattle.pairs.specs.Directions.{moved_direction, standing_direction, opposite};
ghost use Rattle.pairs.specs.Gaps.{rounded_axis};

use hull::Direction;
use pairs::{Axis, BoundedAxis, SeparatingAxis};
use placement::Placement;

// So many units of an image make a tick.
const W: i64 = 1048576;

// A unit of a shift is so many units of a reach.
const SHIFT_RATIO: i64 = 1;

// The product of an axis and three numbers.
pub(crate) fn product<const LIMIT: u16>(l: &BoundedAxis<LIMIT>, x: i32, y: i32, z: i32) -> i64
    ensures { result ≡ dot l.now.x l.now.y l.now.z x y z }
{
    integers::dot(l.x as i64, l.y as i64, l.z as i64, x, y, z) as i64
}

// The direction with these entries.
fn direction(x: i64, y: i64, z: i64) -> Direction
    requires { Within direction_limit x y z }
    ensures { (result.x ≡ x) × (result.y ≡ y) × (result.z ≡ z) }
{
    Direction::new(x, y, z).unwrap()
}

// The direction along which the moved hull is asked.
fn moved(p: &Placement, l: &Axis) -> Direction
    ensures { result ≡ moved_direction p.now l.now }
{
    direction(
        product(l, p.x.x, p.y.x, p.z.x),
        product(l, p.x.y, p.y.y, p.z.y),
        product(l, p.x.z, p.y.z, p.z.z),
    )
}

// The direction along which the standing hull is asked.
fn standing(l: &Axis) -> Direction
    ensures { result ≡ standing_direction l.now }
{
    direction(W * l.x as i64, W * l.y as i64, W * l.z as i64)
}

// The direction the other way. No Neg, which would have to stand in `hull` and be everybody's, for this one use.
fn reverse(u: &Direction) -> Direction
    ensures { result ≡ opposite u.now }
{
    direction(-u.x, -u.y, -u.z)
}

// What a test along the axis needs.
pub(crate) fn separating_axis(p: &Placement, l: &Axis) -> SeparatingAxis
    ensures { result ≡ rounded_axis p.now l.now }
{
    let moved_up = moved(p, l);
    let standing_up = standing(l);
    SeparatingAxis {
        moved_up,
        moved_down: reverse(&moved_up),
        standing_up,
        standing_down: reverse(&standing_up),
        shift: SHIFT_RATIO * product(l, p.shift.x, p.shift.y, p.shift.z),
    }
}
