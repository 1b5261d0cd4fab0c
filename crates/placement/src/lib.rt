// A placement of the moved piece: a matrix and a shift.
#![tactic(auto)]

mod parts;
mod twelve;

pub use parts::{Placement, Row, Shift, Triple};
