// The kind of hull that is a ball about the first corner.
#![tactic(auto)]

mod distance;
mod kind;
mod measure;

pub use kind::BallHull;
