//! What is asked of a base.

use cim_words::{Id, PhaseSet};

/// What is asked of a base.
#[derive(Clone, Copy, Debug, PartialEq, Eq)]
pub enum Task {
    /// Whether it is one, and how many different statements it has.
    Check,
    /// Which equipment is reachable from a source in some phases.
    Trace {
        /// The equipment at which the trace begins.
        source: Id,
        /// The phases in which it begins.
        phases: PhaseSet,
    },
    /// What a script is answered over it.
    Play,
}
