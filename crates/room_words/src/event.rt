//! What consoles submit, and the entries of a history.

use crate::act::Act;
use crate::shared_difference::SharedDifference;
use cim_words::NoMemory;
use shared_parts::Share;

/// What a console submits: it changes what stands on the network for a time, or the permanent model.
#[derive(Drop)]
pub enum Event {
    /// A switching order.
    Act(Act),
    /// A change of the permanent model.
    Cutover(SharedDifference),
}

/// An accepted event in the history.
#[derive(Drop)]
pub struct Entry {
    /// The console that submitted it, from 1 to 16.
    pub console: u8,
    /// Its number among the entries of this console, from 1.
    pub serial: u32,
    /// What was accepted.
    pub event: Event,
}

impl Share for Event {
    fn share(&self) -> Result<Event, NoMemory> {
        match self {
            Event::Act(act) => Ok(Event::Act(*act)),
            Event::Cutover(difference) => Ok(Event::Cutover(difference.share()?)),
        }
    }
}

impl Share for Entry {
    fn share(&self) -> Result<Entry, NoMemory> {
        Ok(Entry {
            console: self.console,
            serial: self.serial,
            event: self.event.share()?,
        })
    }
}
