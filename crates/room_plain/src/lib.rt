//! The commands over a base and further files: a check, a trace and a script, from the words of the command line to the output.
#![tactic(auto)]

mod answer;
mod check_text;
mod command;
mod commands;
mod files;
mod laws;
mod run;
mod task;
mod telling;
mod trace_text;
mod tracing;

pub use laws::one_answer;
pub use room_base::Status;
pub use run::run_plain;
