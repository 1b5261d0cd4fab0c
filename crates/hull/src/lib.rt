// Corners, directions, and what a kind of hull is.
#![tactic(auto)]

mod corner;
mod decompose;
mod direction;
mod directions;
mod face;
mod kind;
mod range;

pub use corner::Corner;
pub use direction::Direction;
pub use face::{Face, FaceWeight};
pub use kind::Hull;
pub use range::within;
