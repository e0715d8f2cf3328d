//! What consoles are answered.

use room_words::{Receipt, Refused};

/// The answer to a step.
#[derive(Clone, Copy, Debug, PartialEq, Eq)]
pub enum CoreReply {
    /// The event was accepted and is an entry.
    Made(Receipt),
    /// The event was refused.
    Refused(Refused),
    /// The console has now seen the prefix with so many entries.
    Looked(u32),
    /// The prefix is shorter than what the console has seen, or longer than the history.
    NoPrefix,
    /// The console has seen the prefix with so many entries.
    Shown(u32),
}
