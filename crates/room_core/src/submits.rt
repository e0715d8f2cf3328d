//! Submits: an event is judged on the newest version, and enters or is refused.

ghost use Rattle.std.specs.Prelude.{◌≡◌, ◌+◌, ◌++◌, ◌∷◌, [], length, IfOk, OnErr, OnOk};
ghost use Rattle.desk.specs.Consoles.{IsConsole};
ghost use Rattle.desk.specs.Legal.{IsNext};
ghost use Rattle.room_core.specs.Machine.{IsStep, with_seen};
ghost use Rattle.room_core.specs.Views.{HasSeen};
ghost use Rattle.room_core.specs.declared.event.CoreEvent.TheVariants as core_event;

use crate::reply::CoreReply;
use crate::room::RoomCore;
use cim_words::NoMemory;
use desk::{Advance, legal_histories_go_on};
use room_words::{Denied, Entry, Event, Receipt};
use shared_parts::Share;
use std::sync::ledger::Ledger;
use step_count::Steps;

impl<V: Advance> RoomCore<V> {
    /// A console submits an event.
    pub(crate) fn submit<L: Ledger>(
        &mut self,
        console: u8,
        event: &Event,
        steps: &mut Steps<L>,
    ) -> Result<CoreReply, NoMemory>
        requires { IsConsole console }
        ensures ok { IfOk result (λ reply. IsStep (V.judges self.old.origin) self.old (core_event.Submit console event.now) reply self.new) }
        ensures err { OnErr result (self.new ≡ self.old) }
    {
        let entry = Entry {
            console,
            serial: self.newest.serial(console),
            event: event.share()?,
        };
        match self.newest.advance(self.alloc, &entry, steps) {
            Ok(version) => Ok(CoreReply::Made(self.enter(&entry, version)?)),
            Err(Denied::Refused(refused)) => {
                let version = self.newest.share()?;
                self.show(console, version);
                Ok(CoreReply::Refused(refused))
            }
            Err(Denied::NoMemory) => Err(NoMemory),
        }
    }

    /// Makes the version with one more entry the newest, which the console of that entry has then seen.
    fn enter(&mut self, entry: &Entry, version: V) -> Result<Receipt, NoMemory>
        requires next { IsNext (V.judges self.old.origin) self.old.log entry.now }
        requires log { V.log version ≡ self.old.log ++ entry.now ∷ [] }
        requires origin { V.origin version ≡ self.old.origin }
        ensures ok { OnOk result (self.new ≡ record (with_seen self.old entry.now.console (length self.old.log + 1)) { log = self.old.log ++ entry.now ∷ [] }) }
        ensures receipt { IfOk result (λ receipt. receipt ≡ record { console = entry.now.console; serial = entry.now.serial; number = length self.old.log + 1 }) }
        ensures err { OnErr result (self.new ≡ self.old) }
    {
        legal_histories_go_on::<V>();
        let seen = version.share()?;
        let number = version.number();
        self.newest = version;
        self.show(entry.console, seen);
        Ok(Receipt {
            console: entry.console,
            serial: entry.serial,
            number,
        })
    }

    /// Shows a version to a console.
    pub(crate) fn show(&mut self, console: u8, version: V)
        requires console { IsConsole console }
        requires seen { HasSeen self.old.origin (V.origin version) self.old.log (V.log version) }
        ensures { self.new ≡ with_seen self.old console (length (V.log version)) }
    {
        self.shown[console as usize - 1] = version;
    }
}
