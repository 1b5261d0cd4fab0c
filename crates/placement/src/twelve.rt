// A placement from twelve numbers.
ghost use Rattle.std.specs.Prelude.{◌≡◌, MatchOption};
ghost use Rattle.placement.specs.Twelve.{InRange, entries};

use super::parts::{Placement, Row, Shift};

impl Placement {
    // The placement with these numbers, the matrix row by row and then the shift, where each is in its range.
    pub fn new(n: [i64; 12]) -> Option<Placement>
        ensures { MatchOption result (InRange n → ⊥) (λ p. entries p ≡ n) }
    {
        let [xx, xy, xz, yx, yy, yz, zx, zy, zz, tx, ty, tz] = n;
        let x = Row::new(xx, xy, xz)?;
        let y = Row::new(yx, yy, yz)?;
        let z = Row::new(zx, zy, zz)?;
        let shift = Shift::new(tx, ty, tz)?;
        Some(Placement { x, y, z, shift })
    }
}
