// The separating axis test of two hulls under a placement.
#![tactic(auto)]

mod separation;

pub use separation::{first_gap, gaps, parted, second_gap};
