// A direction as weights on three faces: those of a box, and those of the 26.
ghost use Rattle.std.specs.Prelude.{◌≡◌, ◌≤◌, [], ◌∷◌, map, pos, ◌+ℤ◌, unsigned_abs};
ghost use Rattle.hull.specs.Units.{direction_limit};
ghost use Rattle.hull.specs.Faces.{behind, joined, place, Small};
ghost use Rattle.hull.specs.Weights.{entry, sorted, stacked, divided, Ranked};

use super::face::{Face, FaceWeight, Weight};

const WEIGHT_UNIT: u32 = 64;

// Where a face stands in the list of faces, by its entries, each one more than it is; no face stands past the end.
const PLACES: [[[u8; 3]; 3]; 3] = [
    [[25, 9, 24], [13, 1, 12], [23, 8, 22]],
    [[17, 3, 16], [5, 26, 4], [15, 2, 14]],
    [[21, 7, 20], [11, 0, 10], [19, 6, 18]],
];

// The face that looks the other way. Not `-f`, nor `e + f` below: an operator would be public, and allowed at small faces alone.
fn opposite(f: Face) -> Face
    requires { Small f }
    ensures { result ≡ behind f }
{
    Face {
        x: -f.x,
        y: -f.y,
        z: -f.z,
    }
}

// The size of an entry, on the axis of its sign.
pub(crate) fn entry_on(z: i64, axis: Face) -> Weight
    requires { (unsigned_abs z ≤ direction_limit) × (Small axis) }
    ensures value { result ≡ entry z axis }
    ensures bound { result.amount ≤ direction_limit }
    ensures small { Small result.on }
{
    let amount = z.unsigned_abs() as u32;
    if z < 0 {
        Weight {
            amount,
            on: opposite(axis),
        }
    } else {
        Weight { amount, on: axis }
    }
}

// The three weights, the largest first, and of two equals the one that came first. The library's sort that keeps such an order takes heap.
fn sort(a: Weight, b: Weight, c: Weight) -> (Weight, Weight, Weight)
    ensures { result.0 ∷ result.1 ∷ result.2 ∷ [] ≡ sorted (a ∷ b ∷ c ∷ []) }
{
    let (q, r) = if c.amount <= b.amount { (b, c) } else { (c, b) };
    if q.amount <= a.amount {
        (a, q, r)
    } else if r.amount <= a.amount {
        (q, a, r)
    } else {
        (q, r, a)
    }
}

// An entry of a face as an index.
fn index(z: i8) -> usize
    requires { unsigned_abs z ≤ 1 }
    ensures { (result ≡ unsigned_abs (z +ℤ pos 1)) × (result ≤ 2) }
{
    (z + 1) as usize
}

// Where a face stands in the list of faces.
fn place_of(f: Face) -> u8
    requires { Small f }
    ensures { result ≡ place f }
{
    PLACES[index(f.x)][index(f.y)][index(f.z)]
}

// A weight as a direction keeps it.
pub(crate) fn divide(w: Weight) -> FaceWeight
    requires { Small w.on }
    ensures { result ≡ divided w }
{
    FaceWeight {
        face: place_of(w.on),
        up: w.amount.div_ceil(WEIGHT_UNIT),
        down: w.amount / WEIGHT_UNIT,
    }
}

// The sum of two faces.
fn join(e: Face, f: Face) -> Face
    requires { (Small e) × (Small f) }
    ensures { result ≡ joined e f }
{
    Face {
        x: e.x + f.x,
        y: e.y + f.y,
        z: e.z + f.z,
    }
}

// What each weight has more than the next, on the sum of the faces up to its own.
fn stack(p: Weight, q: Weight, r: Weight) -> [FaceWeight; 3]
    requires { Ranked (p ∷ q ∷ r ∷ []) }
    ensures { result ≡ map divided (stacked (p ∷ q ∷ r ∷ [])) }
{
    let edge = join(p.on, q.on);
    let tip = join(edge, r.on);
    [
        divide(Weight {
            amount: p.amount - q.amount,
            on: p.on,
        }),
        divide(Weight {
            amount: q.amount - r.amount,
            on: edge,
        }),
        divide(Weight {
            amount: r.amount,
            on: tip,
        }),
    ]
}

// The weights of a direction on the 26 faces, from those on the axes.
pub(crate) fn on_many(a: Weight, b: Weight, c: Weight) -> [FaceWeight; 3]
    requires { Ranked (sorted (a ∷ b ∷ c ∷ [])) }
    ensures { result ≡ map divided (stacked (sorted (a ∷ b ∷ c ∷ []))) }
{
    let (p, q, r) = sort(a, b, c);
    stack(p, q, r)
}
