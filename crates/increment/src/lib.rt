//! Which entries of the graph a switching order changes, and the graph after it.
#![tactic(auto)]

mod after;
mod laws;
mod putting;
mod touched;

pub use after::after_act;
pub use laws::acts_touch_few_entries;
