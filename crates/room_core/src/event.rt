//! What consoles do.

use room_words::Event;

/// A step of a console, which has a number from 1 to 16.
#[derive(Drop)]
pub enum CoreEvent {
    /// It submits an event.
    Submit {
        /// The console.
        console: u8,
        /// What it submits.
        event: Event,
    },
    /// It looks at a prefix of the history.
    Look {
        /// The console.
        console: u8,
        /// How many entries the prefix has; none means the whole history.
        at: Option<u32>,
    },
    /// It asks on the prefix that it has seen.
    Ask {
        /// The console.
        console: u8,
    },
}
