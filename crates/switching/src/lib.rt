//! The judgement of switching orders: the refusal of an act, or the overlay that it makes.
#![tactic(auto)]

mod anchors;
mod denied;
mod effects;
mod judgement;
mod marks;
mod refusals;
mod targets;

pub use cim_words::NoMemory;
pub use denied::ActDenied;
pub use judgement::judge;
