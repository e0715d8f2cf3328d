//! The sessions of the consoles of a room: requests come over a link as lines, and each has its reply.
#![tactic(auto)]

mod door_end;
mod doors;
mod draft;
mod requests;
mod session;
mod submits;
mod talk;

pub use door_end::DoorEnd;
pub use doors::{Stand, serve_doors};
pub use session::{SessionEnd, serve_session};
