//! One writer publishes versions of a value, and up to sixteen readers look at them. A look waits for nobody, and never goes back.
#![tactic(auto)]

mod copies;
mod dated;
mod ends;
mod note;
mod opening;
mod plays;
mod reader;
mod rule;
mod shares;
mod slots;
mod views;
mod word;
mod writer;

pub use copies::Copies;
pub use dated::Dated;
pub use ends::{Closed, close};
pub use note::Note;
pub use opening::start;
pub use reader::Reader;
pub use std::alloc::AllocError as NoMemory;
pub use writer::Writer;
