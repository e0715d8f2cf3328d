//! What a walk through the graph reaches from a piece of equipment, phase by phase.
#![tactic(auto)]

mod capacity;
mod gather;
mod hub;
mod hubs;
mod lines;
mod merge;
mod phases;
mod search;
mod spread;
mod terminals;
mod tracer;
mod walk;

pub use cim_words::NoMemory;
pub use tracer::{NoSuch, Tracer};
