//! The outside of the program: traits for named content, for text that is written, for peers and for the doors
//! that they come through, and forms of each in memory.
#![tactic(auto)]

mod door;
mod doorway;
mod failure;
mod file_list;
mod gate;
mod input;
mod link;
mod mem_door;
mod mem_link;
mod mem_shelf;
mod mem_sink;
mod notes;
mod shelf;
mod sink;
mod sure;
mod sure_link;

pub use door::Door;
pub use failure::{Failed, NoMemory};
pub use file_list::Files;
pub use gate::{Gate, OpenGate};
pub use link::Link;
pub use mem_door::MemDoor;
pub use mem_link::MemLink;
pub use mem_shelf::MemShelf;
pub use mem_sink::MemSink;
pub use notes::{Note, Notes};
pub use shelf::{Shelf, ShelfFault};
pub use sink::Sink;
pub use sure::{SureShelf, SureSink};
pub use sure_link::{SureDoor, SureLink};
