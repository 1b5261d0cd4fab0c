// Takes the words of a job one by one.
#![tactic(auto)]

mod number;
mod taking;

pub use taking::{MOST_BYTES, Words};
