//! The judgement of differences: a change of the permanent model beneath what operators have placed on it.
#![tactic(auto)]

mod denied;
mod judgement;

pub use cim_words::NoMemory;
pub use denied::DiffDenied;
pub use judgement::{accepted_differences_stand, differences_have_one_judgement, judge_difference};
