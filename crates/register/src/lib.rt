// A register of scans over a lent table, and the drafts that fill it.
#![tactic(auto)]

mod calls;
mod compare;
mod draft;
mod example;
mod facets;
mod history;
mod place;
mod register;
mod requests;
mod stack;
mod ties;
mod walk;

pub use draft::{Draft, Unclosed};
pub use history::replay;
pub use place::Place;
pub use register::Register;
pub use requests::replay_requests;
