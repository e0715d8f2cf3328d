//! Doors and links over TCP: the adapters of the traits of `grid_out` to the sockets of the system.
#![tactic(auto)]

mod crossing;
mod stream;
mod tcp_door;
mod tcp_link;
#[cfg(test)]
mod tests;

pub use tcp_door::TcpDoor;
pub use tcp_link::TcpLink;
