//! The entries of the graph of a live network: the star of each piece of equipment and item, and the members of each place.
#![tactic(auto)]

mod laws;
mod line;
mod members;
mod spokes;
mod star;
mod terms;

pub use cim_words::NoMemory;
pub use laws::{lines_list_terminals_at_spots, one_list_of_members, one_star};
pub use members::members_of;
pub use star::star_of;
