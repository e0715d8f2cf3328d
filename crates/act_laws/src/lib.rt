//! Laws of switching orders.
#![tactic(auto)]

mod laws;

pub use laws::accepted_acts_stand;
