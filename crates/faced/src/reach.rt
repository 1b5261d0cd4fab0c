// The reach of a hull with faces.
ghost use Rattle.std.specs.Prelude.{◌≡◌, ◌^◌, ◌<◌, ◌≤◌, ℤ, pos, ◌*ℤ◌, unsigned_abs};
ghost use Rattle.hull.specs.declared.face.FaceWeight.{FaceWeight as Kept};
ghost use Rattle.std.specs.List.{AllByRecursion};
ghost use Rattle.faced.specs.Terms.{counted, term, terms};

use hull::FaceWeight;

// A weight's part of the reach, at the support value of its face.
fn part(w: &FaceWeight, g: i16) -> i64
    ensures value { result ≡ counted w.now g }
    ensures bound { unsigned_abs result ≤ 2 ^ 47 }
{
    let n = if g < 0 { w.down } else { w.up };
    integers::product(n as i64, g as i32) as i64
}

// The sum of the three parts.
pub(crate) fn reach_along<const N: usize>(values: &[i16; N], weights: &[FaceWeight; 3]) -> i64
    requires { AllByRecursion (λ (w : Kept). w.face < N) weights.now }
    ensures { result ≡ terms values.now weights.now }
{
    let [a, b, c] = weights;
    part(a, values[a.face as usize])
        + part(b, values[b.face as usize])
        + part(c, values[c.face as usize])
}
