//! Documents of differences that come line by line, of this project: what is kept of one, what ends it, and what it says.
#![tactic(auto)]

mod document;
mod laws;

pub use cim_words::NoMemory;
pub use document::{Document, ends_document};
pub use laws::kept_documents_are_read;
