// What tells one kind of hull with faces from another.
ghost use Rattle.std.specs.Prelude.{◌≡◌, ◌≤◌, ◌↔◌, map, List, ℤ};
ghost use Rattle.hull.specs.declared.corner.Corner.{Corner};
ghost use Rattle.hull.specs.declared.direction.Direction.{Direction};
ghost use Rattle.hull.specs.declared.face.Weight.{Weight};
ghost use Rattle.hull.specs.Weights.{divided};
ghost use Rattle.support.specs.Supports.{reach_on};
ghost use Rattle.support.specs.Exchange.{InAnyOrderAs};
ghost use Rattle.support.proofs.FacedLaws.{Decomposes};
ghost use Rattle.faced.specs.declared.hulls.FacedHull.{FacedHull};
ghost use Rattle.faced.specs.Hulls.{FitsOn};

use hull::{Direction, FaceWeight};

// A kind that writes a direction as weights on the first N faces of the list.
pub trait Weighted<const N: usize> {
    // its word in a job
    const NAME: &'static str;

    ghost few: { N ≤ 26 };

    // the weights of a direction, whose sum it is
    ghost weights: { Direction → List Weight };

    ghost decomposes: { (u : Direction) → Decomposes u N (weights u) };

    // which lists a hull fits, by the kind's own definition
    ghost fits: { FacedHull N → List Corner → Type 0 };

    // those whose support values on the first N faces it keeps, and no others
    ghost supported: { (h : FacedHull N) (c : List Corner) → fits h c ↔ FitsOn N h c };

    // what the kind makes of weights on the axes, the largest first
    ghost arranged: { List Weight → List Weight };

    // The weights, as the direction keeps them.
    fn weights_of(u: &Direction) -> &[FaceWeight; 3]
        ensures { result.now ≡ map divided (weights u.now) };

    // equal weights on the axes may come in any order
    ghost free: { (u : Direction) (g : List ℤ) → InAnyOrderAs arranged g u.x u.y u.z (reach_on (weights u) g) };
}
