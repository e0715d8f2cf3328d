//! Versions of a room: a base and a history, with the network that they make.
#![tactic(auto)]

mod advances;
mod crossing;
mod held;
mod laws;
mod limits;
mod moved;
mod serials;
mod traces;
mod version;

pub use cim_words::NoMemory;
pub use laws::{
    histories_are_judged_in_one_way, histories_keep_networks_sound, histories_leave_one_network,
};
pub use limits::log_room;
pub use traces::TraceNo;
pub use version::Version;
