//! What a console gets for an accepted event.

/// The receipt of an accepted event: it names the entry of the history that the event became.
#[derive(Clone, Copy, Debug, PartialEq, Eq)]
pub struct Receipt {
    /// The console that submitted it.
    pub console: u8,
    /// The entry's number among the entries of this console, from 1.
    pub serial: u32,
    /// The entry's number in the history, from 1.
    pub number: u32,
}
