// The report on a job.
#![tactic(auto)]

mod lines;
mod report;

pub use report::{Lists, render};
