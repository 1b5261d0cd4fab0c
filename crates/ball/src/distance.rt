// How far two corners are apart.
ghost use Rattle.std.specs.Prelude.{◌≡◌, ◌*◌, ◌^◌, ◌≤◌, ◌-ℤ◌, unsigned_abs};
ghost use Rattle.ball.specs.Balls.{apart, distance_up};

use hull::Corner;

// The square of the difference of two entries.
fn square(a: i16, b: i16) -> u64
    ensures value { result ≡ unsigned_abs (a -ℤ b) * unsigned_abs (a -ℤ b) }
    ensures bound { result ≤ 2 ^ 32 }
{
    integers::square(a.abs_diff(b) as u32)
}

// The square of the distance.
fn squared_distance(p: Corner, q: Corner) -> u64
    ensures value { result ≡ apart p q }
    ensures bound { result ≤ 3 * 2 ^ 32 }
{
    square(p.x, q.x) + square(p.y, q.y) + square(p.z, q.z)
}

// The distance, rounded up.
pub(crate) fn distance(p: Corner, q: Corner) -> u32
    ensures { result ≡ distance_up p q }
{
    let sum = squared_distance(p, q);
    integers::ceil_root(sum) as u32
}
