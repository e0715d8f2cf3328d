//! A history, written to the output in pieces behind a text that was kept back.
#![tactic(auto)]

mod fault;
mod history;
mod output;

pub use fault::OutFault;
pub use history::write_history;
pub use output::{flush, flush_full};
