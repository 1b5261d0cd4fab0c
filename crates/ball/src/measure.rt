// The parts of a reach.
ghost use Rattle.std.specs.Prelude.{◌≡◌, ◌*◌, ◌^◌, ◌≤◌, pos, unsigned_abs};
ghost use Rattle.integers.specs.Rounding.{div_up};
ghost use Rattle.hull.specs.Units.{corner_limit, direction_limit, reach_unit};
ghost use Rattle.hull.specs.Measures.{along};

use hull::{Corner, Direction};

const REACH_UNIT: i128 = 256;

// The product of a direction and a corner.
pub(crate) fn dot(u: &Direction, p: Corner) -> i128
    ensures value { result ≡ along u.now p }
    ensures bound { unsigned_abs result ≤ 3 * (direction_limit * corner_limit) }
{
    integers::dot(u.x, u.y, u.z, p.x as i32, p.y as i32, p.z as i32)
}

// A radius times a length.
pub(crate) fn extent(radius: u32, length: u32) -> i128
    ensures value { result ≡ pos (radius * length) }
    ensures bound { unsigned_abs result ≤ 2 ^ 64 }
{
    (radius as u64 * length as u64) as i128
}

// A number in units of a reach, rounded up.
pub(crate) fn in_units(z: i128) -> i64
    requires { unsigned_abs z ≤ 2 ^ 65 }
    ensures { result ≡ div_up z reach_unit }
{
    // Not by `integers::div_up`, with which the walks of a comparison of balls take a tenth longer.
    let units = if z < 0 {
        z / REACH_UNIT
    } else {
        (z + (REACH_UNIT - 1)) / REACH_UNIT
    };
    units as i64
}
