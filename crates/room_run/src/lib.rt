//! A room that is opened over a base, served at its doors, and closed.
#![tactic(auto)]

mod run;
mod standing;

pub use run::{Run, run_room};
