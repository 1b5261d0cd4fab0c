// A ball about the first corner.
ghost use Rattle.std.specs.Prelude.{pos};
ghost use Rattle.ball.specs.Balls.{ball_begun, ball_grown, reach_of_ball, BallFits};
ghost use Rattle.ball.specs.BallLaws as laws;
ghost use Rattle.std.proofs.Common.{rules};

use super::distance::distance;
use super::measure::{dot, extent, in_units};
use hull::{Corner, Direction, Hull};

#[derive(Clone, Copy)]
pub struct BallHull {
    centre: Corner,
    // the largest distance of a corner to the centre, rounded up
    radius: u32,
}

impl Hull for BallHull {
    const WORD: &'static str = "ball";

    const FACES: usize = 0;

    ghost begun = { ball_begun };

    ghost grown = { ball_grown };

    ghost reaches = { reach_of_ball };

    ghost fits = { BallFits };

    ghost faced = { ⊥ };

    ghost unrounded = { λ _ _. pos 0 };

    ghost one = { λ p. laws.one p };

    ghost another = { λ h c p f. laws.another h c p f };

    ghost covers = { λ h c u f. laws.covers h c u f };

    ghost tight = { λ h c u s f n. laws.tight h c u s f n };

    ghost rounds = { Prim.search rules };

    fn first(p: Corner) -> BallHull {
        BallHull {
            centre: p,
            radius: 0,
        }
    }

    fn more(self, p: Corner) -> BallHull {
        BallHull {
            centre: self.centre,
            radius: self.radius.max(distance(p, self.centre)),
        }
    }

    fn reach(&self, u: &Direction) -> i64 {
        in_units(dot(u, self.centre) + extent(self.radius, u.length))
    }
}
