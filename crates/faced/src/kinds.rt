// The box and the 26-faced hull.
ghost use Rattle.std.proofs.Common.{lit≤};
ghost use Rattle.hull.specs.Weights.{stacked};
ghost use Rattle.support.proofs.Decompositions.{box_decomposes, many_decomposes};
ghost use Rattle.support.proofs.Exchange.{box_in_any_order, many_in_any_order};
ghost use Rattle.faced.specs.Hulls.{on_box, on_many, BoxFits, ManyFits};

use super::hulls::FacedHull;
use super::weighted::Weighted;
use hull::{Direction, FaceWeight};

// A box, by the support values of its six faces along the axes.
pub type BoxHull = FacedHull<6>;

impl Weighted<6> for BoxHull {
    const NAME: &'static str = "box";

    ghost few = { lit≤ tt };

    ghost weights = { on_box };

    ghost decomposes = { box_decomposes };

    ghost fits = { BoxFits };

    ghost supported = { λ h c. (λ f. f, λ f. f) };

    ghost arranged = { λ ws. ws };

    ghost free = { box_in_any_order };

    fn weights_of(u: &Direction) -> &[FaceWeight; 3] {
        &u.box_weights
    }
}

// A hull by the support values of 26 faces: every direction with the entries -1, 0 and 1 that is not 0.
pub type ManyHull = FacedHull<26>;

impl Weighted<26> for ManyHull {
    const NAME: &'static str = "many";

    ghost few = { lit≤ tt };

    ghost weights = { on_many };

    ghost decomposes = { many_decomposes };

    ghost fits = { ManyFits };

    ghost supported = { λ h c. (λ f. f, λ f. f) };

    ghost arranged = { stacked };

    ghost free = { many_in_any_order };

    fn weights_of(u: &Direction) -> &[FaceWeight; 3] {
        &u.many_weights
    }
}
