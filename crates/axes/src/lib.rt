// The axes of a placement, made ready for tests.
#![tactic(auto)]

mod axis_list;
mod directions;
mod table;

pub use table::{AXIS_COUNT, Axes};
