//! The network of a model, looked up by identifier.
#![tactic(auto)]

mod gathering;
mod groups;
mod index;
mod part_phases;
mod queries;
mod subject;
mod subject_statements;
mod subjects;
mod tables;

pub use cim_words::NoMemory;
pub use index::Index;
