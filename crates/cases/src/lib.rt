// The worked cases of the rules, proved of their definitions and run.
#![tactic(auto)]

ghost use Rattle.std.specs.Prelude.{◌≡◌, true, pos, Some};
ghost use Rattle.cases.specs.Worked.{Worked, Lifts};

use ball::BallHull;
use hull::{Corner, Direction, Hull};

// The reach of the ball of (0, 0, 0), (3, 4, 0) and (0, 0, 0) along (0, 0, W).
fn ball_reach() -> Option<i64>
    ensures { result ≡ Some (pos 20480) }
{
    let origin = Corner::new(0, 0, 0)?;
    let p = Corner::new(3, 4, 0)?;
    let up = Direction::new(0, 0, 1048576)?;
    Some(BallHull::first(origin).more(p).more(origin).reach(&up))
}

// Whether the code gives what the cases say.
#[tactic(auto, using(crate::proofs::WorkedOut::worked, crate::proofs::WorkedOut::lifts))]
pub fn worked_cases() -> bool
    ensures worked { Worked × Lifts }
    ensures run { result ≡ true }
{
    ball_reach() == Some(20480)
}
