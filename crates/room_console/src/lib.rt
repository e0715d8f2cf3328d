//! The consoles of a room: each submits and looks in a thread of its own, and at the end the log's entries are the consoles' receipts, each once.
#![tactic(auto)]

mod closing;
mod console;
mod crossing;
mod entering;
mod room;
mod seats;

pub use closing::{ClosedRoom, close_room};
pub use console::Console;
pub use room::{Room, start_room};
