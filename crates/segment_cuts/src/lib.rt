//! The sections of a line segment between its terminals, its cuts and its clamps.
#![tactic(auto)]

mod cutting;
mod laws;
mod line;
mod mark;
mod segment;

pub use cim_words::NoMemory;
pub use laws::{sections_are_determined, spots_stand_in_their_sections};
pub use mark::{Mark, Spot};
pub use segment::{Section, section_of, sections};
