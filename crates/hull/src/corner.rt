// A corner of a scan, in ticks.
ghost use Rattle.std.specs.Prelude.{◌≡◌, ◌≤◌, MatchOption, unsigned_abs};
ghost use Rattle.hull.specs.Units.{corner_limit, Within};

use super::range::within;

#[derive(Clone, Copy)]
pub struct Corner {
    pub x: i16,
    pub y: i16,
    pub z: i16,
    ghost x_in: { unsigned_abs x ≤ corner_limit },
    ghost y_in: { unsigned_abs y ≤ corner_limit },
    ghost z_in: { unsigned_abs z ≤ corner_limit },
}

const LIMIT: u64 = 32767;

impl Corner {
    // The corner with these entries, where each is in its range.
    pub fn new(x: i64, y: i64, z: i64) -> Option<Corner>
        ensures { MatchOption result (Within corner_limit x y z → ⊥) (λ p. (p.x ≡ x) × (p.y ≡ y) × (p.z ≡ z)) }
    {
        if within(LIMIT, x, y, z) {
            Some(Corner {
                x: x as i16,
                y: y as i16,
                z: z as i16,
            })
        } else {
            None
        }
    }
}
