//! The room as a machine of one thread: sixteen consoles submit, look and ask, one step after the other.
#![tactic(auto)]

mod event;
mod laws;
mod looks;
mod reply;
mod room;
mod run;
mod submits;

pub use cim_words::NoMemory;
pub use event::CoreEvent;
pub use laws::{steps_have_one_reply, steps_keep_origins};
pub use reply::CoreReply;
pub use room::RoomCore;
