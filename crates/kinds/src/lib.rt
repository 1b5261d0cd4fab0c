// The replay of a history at each kind of hull: the one replay of `register`, with the kind's own rules in the contract.
#![tactic(auto, using(crate::proofs::Asking::replayed_requests))]

ghost use Rattle.std.specs.Prelude.{pos, length};
ghost use Rattle.faced.specs.Hulls.{box_begun, box_grown, box_reach, box_unrounded, many_begun, many_grown, many_reach, many_unrounded};
ghost use Rattle.ball.specs.Balls.{ball_begun, ball_grown, reach_of_ball};
ghost use Rattle.walks.specs.Runs.{Replayed};

use ball::BallHull;
use book::{Answer, Request};
use faced::{BoxHull, ManyHull};
use register::{Place, replay_requests};

// Over boxes. Their unrounded reach is the sum of weight × d over the faces of a box.
pub fn replay_box(
    mark: u16,
    table: &mut [Place<BoxHull>],
    requests: &[Request],
    answers: &mut [Answer],
    places: usize,
    lists: &mut [(u32, u32)],
)
    ensures { Replayed box_begun box_grown box_reach (Unit {0}) box_unrounded mark (length table.old) requests.now answers.old answers.new places lists.old lists.new }
{
    replay_requests::<BoxHull, _>(mark, table, requests, answers, places, lists);
}

// Over 26-faced hulls. Their unrounded reach is the sum of weight × d over three of the 26 faces.
pub fn replay_many(
    mark: u16,
    table: &mut [Place<ManyHull>],
    requests: &[Request],
    answers: &mut [Answer],
    places: usize,
    lists: &mut [(u32, u32)],
)
    ensures { Replayed many_begun many_grown many_reach (Unit {0}) many_unrounded mark (length table.old) requests.now answers.old answers.new places lists.old lists.new }
{
    replay_requests::<ManyHull, _>(mark, table, requests, answers, places, lists);
}

// Over balls, which have no unrounded reach.
pub fn replay_ball(
    mark: u16,
    table: &mut [Place<BallHull>],
    requests: &[Request],
    answers: &mut [Answer],
    places: usize,
    lists: &mut [(u32, u32)],
)
    ensures { Replayed ball_begun ball_grown reach_of_ball ⊥ (λ _ _. pos 0) mark (length table.old) requests.now answers.old answers.new places lists.old lists.new }
{
    replay_requests::<BallHull, _>(mark, table, requests, answers, places, lists);
}
