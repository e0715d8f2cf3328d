//! The profile of the model: which sets of statements are networks that this program takes.
#![tactic(auto)]

mod attributes;
mod crowds;
mod facts;
mod faults;
mod forms;
mod kind;
mod mark_kind;
mod marks;
mod places;
mod rule;
mod rules;
mod said;
mod stage;
mod stated;
mod subject;
mod table;

pub use cim_words::NoMemory;
pub use faults::{Break, first_break};
