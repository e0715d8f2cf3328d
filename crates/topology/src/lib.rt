//! The graph of a live network from nothing, and the law that its walks are the network's reach.
#![tactic(auto)]

mod laws;
mod listing;
mod making;

pub use cim_words::NoMemory;
pub use laws::walks_are_reach;
pub use making::rebuild;
