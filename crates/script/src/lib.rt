// Reads the text of a job into the requests that it makes.
#![tactic(auto)]

mod reader;
mod rows;
mod script;
mod stop;

pub use rows::MARK;
pub use script::{Script, read};
