// What the text of a job is held to: its sections, the places in it and its faults.
#![tactic(auto)]

mod entry;
mod fault;
mod kind;
mod section;
mod text;

pub use entry::{Blamed, Entry};
pub use fault::{Blame, Fault, Flaw};
pub use kind::Kind;
pub use section::Section;
pub use text::is_text;
