//! Difference documents (after the difference models of IEC 61970-552): their text, both ways, and what a difference makes of a model.
#![tactic(auto)]

mod draft;
mod fault;
mod headings;
mod reading;
mod result;
mod said;
mod writing;

pub use cim_words::NoMemory;
pub use fault::DiffFault;
pub use reading::{documents_have_one_reading, read};
pub use result::{apply, first_missing};
pub use writing::{write, written_differences_are_read};
