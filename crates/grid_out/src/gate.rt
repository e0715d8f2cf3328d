//! The trait that a session passes between a request and its answer.

use std::sync::Wait;

/// Where a session may be held after a request was read and before it is judged.
pub trait Gate {
    /// Returns when this console may go on with its request of this number, which counts from 1 in each session.
    fn passed<R: Wait>(&self, rt: &R, console: u8, request: u64);
}

/// A gate that holds nobody.
#[derive(Clone, Copy, Debug, Drop)]
pub struct OpenGate;

impl Gate for OpenGate {
    fn passed<R: Wait>(&self, _rt: &R, _console: u8, _request: u64) {}
}
