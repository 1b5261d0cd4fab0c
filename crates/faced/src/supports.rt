// Support values on the faces of a hull, and what they add to a reach.
ghost use Rattle.std.specs.Prelude.{◌≡◌, ◌*◌, ◌<◌, ◌≤◌, ℤ, pos, slice_index_or, unsigned_abs};
ghost use Rattle.hull.specs.Units.{corner_limit};
ghost use Rattle.hull.specs.Faces.{Small};
ghost use Rattle.support.specs.Supports.{product, kept, supports, raised};

use hull::{Corner, Face};

const SUPPORT_UNIT: u32 = 4;

// Where each face looks.
const FACES: [Face; 26] = [
    Face { x: 1, y: 0, z: 0 },
    Face { x: -1, y: 0, z: 0 },
    Face { x: 0, y: 1, z: 0 },
    Face { x: 0, y: -1, z: 0 },
    Face { x: 0, y: 0, z: 1 },
    Face { x: 0, y: 0, z: -1 },
    Face { x: 1, y: 1, z: 0 },
    Face { x: 1, y: -1, z: 0 },
    Face { x: -1, y: 1, z: 0 },
    Face { x: -1, y: -1, z: 0 },
    Face { x: 1, y: 0, z: 1 },
    Face { x: 1, y: 0, z: -1 },
    Face { x: -1, y: 0, z: 1 },
    Face { x: -1, y: 0, z: -1 },
    Face { x: 0, y: 1, z: 1 },
    Face { x: 0, y: 1, z: -1 },
    Face { x: 0, y: -1, z: 1 },
    Face { x: 0, y: -1, z: -1 },
    Face { x: 1, y: 1, z: 1 },
    Face { x: 1, y: 1, z: -1 },
    Face { x: 1, y: -1, z: 1 },
    Face { x: 1, y: -1, z: -1 },
    Face { x: -1, y: 1, z: 1 },
    Face { x: -1, y: 1, z: -1 },
    Face { x: -1, y: -1, z: 1 },
    Face {
        x: -1,
        y: -1,
        z: -1,
    },
];

// The product of a face and a corner.
fn face_product(f: Face, p: &Corner) -> i128
    requires { Small f }
    ensures value { result ≡ product f p.now }
    ensures bound { unsigned_abs result ≤ 3 * corner_limit }
{
    integers::dot(
        f.x as i64, f.y as i64, f.z as i64, p.x as i32, p.y as i32, p.z as i32,
    )
}

// A product in units of so many, rounded up.
fn round_up(d: i128) -> i16
    requires { unsigned_abs d ≤ 3 * corner_limit }
    ensures { result ≡ kept d }
{
    integers::div_up(d, SUPPORT_UNIT) as i16
}

// The support value of one corner on the face at a place of the list.
fn support_of(face: usize, p: &Corner) -> i16
    requires { face < 26 }
    ensures { result ≡ slice_index_or (supports p.now) face (pos 0) }
{
    round_up(face_product(FACES[face], p))
}

// Support values with one more corner.
pub(crate) fn raise<const N: usize>(values: &mut [i16; N], p: &Corner)
    requires { N ≤ 26 }
    ensures { values.new ≡ raised values.old p.now }
{
    // A face goes by its place in the list, as the rule of a hull has it.
    for (i, value) in values.iter_mut().enumerate() {
        *value = (*value).max(support_of(i, p));
    }
}
