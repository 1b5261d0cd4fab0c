// The report on a job, from its bytes.
#![tactic(auto)]

mod reporting;
mod run;

pub use reporting::report;
