// The kinds of hull with faces: the box and the 26-faced hull.
#![tactic(auto)]

mod hulls;
mod kinds;
mod reach;
mod supports;
mod weighted;

pub use hulls::FacedHull;
pub use kinds::{BoxHull, ManyHull};
pub use weighted::Weighted;
