//! Scripts: the requests of up to sixteen consoles, in the order in which they are made, on a room of one thread.
#![tactic(auto)]

mod answers;
mod laws;
mod line;
mod open_document;
mod playing;
mod rehearsal;
mod turns;

pub use cim_words::NoMemory;
pub use history_writer::OutFault;
pub use laws::scripts_have_one_answer;
pub use playing::play;
