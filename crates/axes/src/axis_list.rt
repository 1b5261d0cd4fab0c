// The 26 axes of a placement.
ghost use Rattle.std.specs.Prelude.{◌≡◌, ◌<◌, slice_index_or};
ghost use Rattle.integers.specs.Rounding.{div_down};
ghost use Rattle.pairs.specs.Units.{fixed_count, axis_count, axis_unit};
ghost use Rattle.pairs.specs.Gaps.{rounded_axis};
ghost use Rattle.pairs.specs.Axes.{fixed_axes, no_fixed, turned_entry, turned, axis_at};

use super::directions::{product, separating_axis};
use super::table::Axes;
use pairs::{Axis, FixedAxis, SeparatingAxis};
use placement::{Placement, Row};
use std::array;

// There are so many fixed axes.
const FIXED_COUNT: usize = 13;

// The fixed axes, in their order.
const FIXED_AXES: [(i16, i16, i16); FIXED_COUNT] = [
    (1, 0, 0),
    (0, 1, 0),
    (0, 0, 1),
    (1, 1, 1),
    (1, 1, -1),
    (1, -1, 1),
    (1, -1, -1),
    (1, 1, 0),
    (1, -1, 0),
    (1, 0, 1),
    (1, 0, -1),
    (0, 1, 1),
    (0, 1, -1),
];

// A fixed axis by its place in the list.
fn fixed_axis(i: usize) -> FixedAxis
    requires { i < fixed_count }
    ensures { result ≡ slice_index_or fixed_axes i no_fixed }
{
    let (x, y, z) = FIXED_AXES[i];
    FixedAxis { x, y, z }
}

// The matrix times a fixed axis is divided by this.
const AXIS_UNIT: i64 = 4096;

// A 4,096th, rounded down.
fn floor(z: i64) -> i64
    ensures { result ≡ div_down z axis_unit }
{
    z.div_euclid(AXIS_UNIT)
}

// The product of a row and a fixed axis, divided and rounded down.
fn turn_entry(r: &Row, a: &FixedAxis) -> i16
    ensures { result ≡ turned_entry r.now a.now }
{
    floor(product(a, r.x, r.y, r.z)) as i16
}

// A fixed axis turned by the placement.
fn turn(p: &Placement, a: &FixedAxis) -> Axis
    ensures { result ≡ turned p.now a.now }
{
    Axis {
        x: turn_entry(&p.x, a),
        y: turn_entry(&p.y, a),
        z: turn_entry(&p.z, a),
    }
}

// An axis of the placement by its place in the list, as the rules number them.
fn axis_of(p: &Placement, i: usize) -> Axis
    requires { i < axis_count }
    ensures { result ≡ axis_at p.now i }
{
    if i < FIXED_COUNT {
        fixed_axis(i).into()
    } else {
        turn(p, &fixed_axis(i - FIXED_COUNT))
    }
}

impl Axes {
    // The axes of a placement.
    pub fn new(p: Placement) -> Axes
        ensures { result.placement ≡ p }
    {
        let each = array::from_fn(
            |i| -> SeparatingAxis
                requires { i < axis_count }
                ensures { result ≡ rounded_axis p (axis_at p i) }
            { separating_axis(&p, &axis_of(&p, i)) },
        );
        Axes { placement: p, each }
    }
}
