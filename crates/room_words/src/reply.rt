//! What a console is answered.

use crate::fault::Fault;
use crate::refused::Refused;
use cim_words::{Id, Listed, PhaseSet};

/// The equipment and items that a trace reached, ascending by identifier, each with the phases in which it is reached.
pub type TraceRows = Listed<(Id, PhaseSet)>;

/// The reply to a request.
#[derive(Drop)]
pub enum Reply {
    /// The event was accepted, and is the entry with this number of the history, from 1.
    Ok(u32),
    /// The event was refused.
    No(Refused),
    /// The source of a trace is neither equipment nor an item, in the network of the prefix with so many entries.
    NoSuch(u32),
    /// The console has now seen the prefix with so many entries.
    Seen(u32),
    /// What is reached in the network of a prefix.
    Trace {
        /// How many entries the prefix has.
        at: u32,
        /// What is reached.
        rows: TraceRows,
    },
    /// A difference was read.
    Staged {
        /// How many preconditions it has.
        pre: u32,
        /// How many reverse statements it has.
        rev: u32,
        /// How many forward statements it has.
        fwd: u32,
    },
    /// The request is not of its form.
    Fault(Fault),
    /// Memory did not suffice.
    Memory,
    /// The session ends.
    Bye,
}
