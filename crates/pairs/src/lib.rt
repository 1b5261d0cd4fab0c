// One pair of hulls along the axes of a placement: the records of an axis, and in proofs/ what follows from a kind's laws.
#![tactic(auto)]

mod axis;
mod conversion;

pub use axis::{Axis, BoundedAxis, FixedAxis, SeparatingAxis};
