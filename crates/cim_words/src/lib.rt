//! The words of a distribution model: identifiers, phases, classes, properties, objects and statements.
#![tactic(auto)]

mod class;
mod groups;
mod identifier;
mod known_prop;
mod length;
mod limits;
mod listed;
mod object;
mod order;
mod phase_names;
mod phase_texts;
mod phases;
mod prop;
mod statement;
mod table;
mod values;
mod word;

pub use class::{CLASSES, Class, classes_are_named};
pub use identifier::{BadId, Id, ids_are_read_back};
pub use known_prop::{KNOWN_PROPS, KnownProp, known_props_are_named};
pub use length::{BadLength, Length};
pub use limits::{MOST_AT_PLACE, MOST_ITEMS, MOST_LENGTH, MOST_MARKS, MOST_TERMINALS};
pub use listed::{Listed, Statements};
pub use object::{Name, Object};
pub use order::statements_are_ordered;
pub use phase_names::phase_names_are_standard;
pub use phase_texts::BadPhase;
pub use phases::{Phase, PhaseSet};
pub use prop::{OtherProp, Prop};
pub use statement::Statement;
pub use std::alloc::AllocError as NoMemory;
pub use values::{read_sequence_number, read_truth};
pub use word::Word;
