// Directions from three numbers.
ghost use Rattle.std.specs.Prelude.{◌≡◌, ◌*◌, ◌≤◌, MatchOption, unsigned_abs};
ghost use Rattle.integers.specs.Roots.{root_up};
ghost use Rattle.hull.specs.Units.{direction_limit, squared, Within};

use super::decompose::{divide, entry_on, on_many};
use super::direction::Direction;
use super::face::Face;
use super::range::within;

const LIMIT: u64 = 2415919104;

const X_AXIS: Face = Face { x: 1, y: 0, z: 0 };

const Y_AXIS: Face = Face { x: 0, y: 1, z: 0 };

const Z_AXIS: Face = Face { x: 0, y: 0, z: 1 };

// The square of an entry.
fn square(z: i64) -> u64
    requires { unsigned_abs z ≤ direction_limit }
    ensures value { result ≡ unsigned_abs z * unsigned_abs z }
    ensures bound { result ≤ direction_limit * direction_limit }
{
    integers::square(z.unsigned_abs() as u32)
}

// The root of the sum of the squares, rounded up. A type of three entries in range would be a direction with nothing else in it.
fn length_of(x: i64, y: i64, z: i64) -> u32
    requires { Within direction_limit x y z }
    ensures { result ≡ root_up (squared x y z) }
{
    let sum = square(x) + square(y) + square(z);
    integers::ceil_root(sum) as u32
}

// The direction with these entries.
fn direction_of(x: i64, y: i64, z: i64) -> Direction
    requires { Within direction_limit x y z }
    ensures { (result.x ≡ x) × (result.y ≡ y) × (result.z ≡ z) }
{
    let a = entry_on(x, X_AXIS);
    let b = entry_on(y, Y_AXIS);
    let c = entry_on(z, Z_AXIS);
    Direction {
        x,
        y,
        z,
        box_weights: [divide(a), divide(b), divide(c)],
        many_weights: on_many(a, b, c),
        length: length_of(x, y, z),
    }
}

impl Direction {
    // The direction with these entries, where each is in its range.
    pub fn new(x: i64, y: i64, z: i64) -> Option<Direction>
        ensures { MatchOption result (Within direction_limit x y z → ⊥) (λ u. (u.x ≡ x) × (u.y ≡ y) × (u.z ≡ z)) }
    {
        if within(LIMIT, x, y, z) {
            Some(direction_of(x, y, z))
        } else {
            None
        }
    }
}
