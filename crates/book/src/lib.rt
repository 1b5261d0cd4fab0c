// What a register is held to: items, calls, answers and the book that they are told of.
#![tactic(auto)]

mod asked;
mod call;
mod item;
mod ledger;
mod refusal;

pub use asked::Asked;
pub use call::{Answer, Call, Comparison, Request};
pub use item::{Facet, Item};
pub use ledger::{Ledger, Span};
pub use refusal::{NoRefusal, Refusal};
