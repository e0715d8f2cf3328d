//! Sets of statements: ordered lists without repeats, which are shared and do not change.
#![tactic(auto)]

mod about;
mod change;
mod copies;
mod lookup;
mod merge;
mod once;
mod refusal;
mod set;
mod subjects;

pub use about::About;
pub use cim_words::NoMemory;
pub use once::sort_once;
pub use refusal::SetRefusal;
pub use set::{StatementSet, one_set};
pub use subjects::Subjects;
