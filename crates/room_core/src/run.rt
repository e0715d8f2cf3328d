//! Steps, one after the other.

ghost use Rattle.std.specs.Prelude.{◌≡◌, ◌≤◌, ◌++◌, ℕ, List, Contains, IfOk, OnErr, OnOk};
ghost use Rattle.desk.specs.Consoles.{IsConsole};
ghost use Rattle.room_core.specs.Machine.{IsStep, Runs, seen_by};
ghost use Rattle.room_core.specs.Views.{IsEvent};
ghost use Rattle.room_core.specs.declared.event.CoreEvent.{CoreEvent};
ghost use Rattle.room_core.specs.declared.reply.CoreReply.{CoreReply};

use crate::event::CoreEvent;
use crate::reply::CoreReply;
use crate::room::RoomCore;
use cim_words::NoMemory;
use desk::Advance;
use std::sync::ledger::Ledger;
use step_count::Steps;

impl<V: Advance> RoomCore<V> {
    /// One step of a console, with its reply. Where memory ends the room is as it was.
    pub fn step<L: Ledger>(
        &mut self,
        event: &CoreEvent,
        steps: &mut Steps<L>,
    ) -> Result<CoreReply, NoMemory>
        requires { IsEvent event.now }
        ensures ok { IfOk result (λ reply. IsStep (V.judges self.old.origin) self.old event.now reply self.new) }
        ensures err { OnErr result (self.new ≡ self.old) }
        // What a console has seen never falls.
        ensures seen { (console : ℕ) → IsConsole console → seen_by self.old console ≤ seen_by self.new console }
    {
        self.history();
        match event {
            CoreEvent::Submit { console, event } => self.submit(*console, event, steps),
            CoreEvent::Look { console, at } => self.look(*console, *at, steps),
            CoreEvent::Ask { console } => Ok(CoreReply::Shown(self.seen(*console))),
        }
    }

    /// Steps one after the other, each with its reply. Where memory ends, the steps answered so far have been made and no other.
    pub fn run_events<L: Ledger>(
        &mut self,
        events: &[CoreEvent],
        into: &mut Vec<CoreReply>,
        steps: &mut Steps<L>,
    ) -> Result<(), NoMemory>
        requires { (event : CoreEvent) → Contains events.now event → IsEvent event }
        ensures ok { OnOk result ((replies : List CoreReply) × (into.new.items ≡ into.old.items ++ replies) × Runs (V.judges self.old.origin) self.old events.now replies self.new) }
        // What a console has seen never falls.
        ensures seen { (console : ℕ) → IsConsole console → seen_by self.old console ≤ seen_by self.new console }
        ensures err { OnErr result ((done left : List CoreEvent) × (replies : List CoreReply) × (events.now ≡ done ++ left) × (into.new.items ≡ into.old.items ++ replies) × Runs (V.judges self.old.origin) self.old done replies self.new) }
    {
        for event in events {
            into.reserve(1)?;
            let reply = self.step(event, steps)?;
            into.push(reply)?;
        }
        Ok(())
    }
}
