//! What a console asks for.

use cim_words::{Id, PhaseSet};
use room_words::Act;

/// A request.
#[derive(Clone, Copy, Debug, PartialEq, Eq)]
pub enum Request {
    /// A switching order.
    Act(Act),
    /// The prefix that the console sees: in a script also one of so many entries, and else the whole history.
    Look(Option<u32>),
    /// What is reached from a source in some phases.
    Trace {
        /// The equipment or item at which the trace begins.
        start: Id,
        /// The phases in which it begins.
        phases: PhaseSet,
    },
    /// The document of a difference follows.
    Stage,
    /// The staged difference changes the model.
    Cutover,
    /// The session ends.
    Bye,
}
