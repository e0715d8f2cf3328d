//! Traces which equipment of a distribution network is reachable per phase from a source, and plays scripts of switching over it.
#![tactic(auto)]

mod file_shelf;
mod out_sink;
mod process;

use file_shelf::FileShelf;
use out_sink::OutSink;
use process::run_code;
use std::env;
use std::process::ExitCode;

fn main(rt: HostRuntime) -> ExitCode {
    // Nothing is told of the arguments, of what the files hold and of what reaches the output.
    ExitCode::from(run_code(
        rt.alloc(),
        env::args(&rt),
        &mut FileShelf::new(&rt),
        &mut OutSink::new(&rt),
    ))
}
