// A placement and its parts, which hold no number outside its range.
ghost use Rattle.std.specs.Prelude.{◌≡◌, ◌^◌, ◌<◌, ◌≤◌, MatchOption, unsigned_abs};
ghost use Rattle.hull.specs.Units.{Within};

use hull::within;

// Three numbers, none beyond a limit in size. Their width is no parameter, as an invariant can speak of numbers and not of a type
// parameter.
#[derive(Clone, Copy)]
pub struct Triple<const LIMIT: u32> {
    pub x: i32,
    pub y: i32,
    pub z: i32,
    ghost x_in: { unsigned_abs x ≤ LIMIT },
    ghost y_in: { unsigned_abs y ≤ LIMIT },
    ghost z_in: { unsigned_abs z ≤ LIMIT },
}

impl<const LIMIT: u32> Triple<LIMIT> {
    // The triple of these numbers, where each is in its range.
    pub(crate) fn new(x: i64, y: i64, z: i64) -> Option<Self>
        requires { LIMIT < 2 ^ 31 }
        ensures { MatchOption result (Within LIMIT x y z → ⊥) (λ w. (w.x ≡ x) × (w.y ≡ y) × (w.z ≡ z)) }
    {
        if within(LIMIT as u64, x, y, z) {
            Some(Triple {
                x: x as i32,
                y: y as i32,
                z: z as i32,
            })
        } else {
            None
        }
    }
}

const MATRIX_LIMIT: u32 = 1048576;

const SHIFT_LIMIT: u32 = 536870912;

// A row of the matrix: what each coordinate of a corner adds to one coordinate of its image.
pub type Row = Triple<MATRIX_LIMIT>;

// Where the piece is set down.
pub type Shift = Triple<SHIFT_LIMIT>;

// The rows of the matrix, each by the coordinate that it gives, and the shift.
#[derive(Clone, Copy)]
pub struct Placement {
    pub x: Row,
    pub y: Row,
    pub z: Row,
    pub shift: Shift,
}
