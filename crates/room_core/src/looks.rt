//! Looks: a console goes on to a longer prefix of the history.

ghost use Rattle.std.specs.Prelude.{◌≡◌, ◌+◌, ◌<◌, ◌≤◌, length, take, IfOk, OnErr};
ghost use Rattle.desk.specs.Consoles.{IsConsole};
ghost use Rattle.room_core.specs.Machine.{IsStep, MayLook, seen_by};
ghost use Rattle.room_core.specs.Views.{HasSeen};
ghost use Rattle.room_core.specs.declared.event.CoreEvent.TheVariants as core_event;

use crate::reply::CoreReply;
use crate::room::RoomCore;
use cim_words::NoMemory;
use desk::Advance;
use room_words::Denied;
use std::sync::ledger::Ledger;
use step_count::Steps;

impl<V: Advance> RoomCore<V> {
    /// A console looks at a prefix of the history, or at all of it.
    pub(crate) fn look<L: Ledger>(
        &mut self,
        console: u8,
        at: Option<u32>,
        steps: &mut Steps<L>,
    ) -> Result<CoreReply, NoMemory>
        requires { IsConsole console }
        ensures ok { IfOk result (λ reply. IsStep (V.judges self.old.origin) self.old (core_event.Look console at) reply self.new) }
        ensures err { OnErr result (self.new ≡ self.old) }
    {
        let newest = self.newest.number();
        let number = at.unwrap_or(newest);
        if number < self.seen(console) || newest < number {
            return Ok(CoreReply::NoPrefix);
        }
        let version = self.version_at(console, number, steps)?;
        self.show(console, version);
        Ok(CoreReply::Looked(number))
    }

    /// How many entries a console has seen.
    pub(crate) fn seen(&self, console: u8) -> u32
        requires { IsConsole console }
        ensures { result ≡ seen_by self.now console }
    {
        self.shown[console as usize - 1].number()
    }

    /// The version of a prefix that is no shorter than what a console has seen.
    fn version_at<L: Ledger>(
        &self,
        console: u8,
        number: u32,
        steps: &mut Steps<L>,
    ) -> Result<V, NoMemory>
        requires console { IsConsole console }
        requires may { MayLook self.now console number }
        ensures { IfOk result (λ version. (V.origin version ≡ self.now.origin) × (V.log version ≡ take number self.now.log)) }
    {
        if number == self.newest.number() {
            return self.newest.share();
        }
        let mut version = self.shown(console).share()?;
        while version.number() < number {
            version = self.after(&version, steps)?;
        }
        Ok(version)
    }

    /// The version with one more entry of the history.
    fn after<L: Ledger>(&self, version: &V, steps: &mut Steps<L>) -> Result<V, NoMemory>
        requires seen { HasSeen self.now.origin (V.origin version.now) self.now.log (V.log version.now) }
        requires more { length (V.log version.now) < length self.now.log }
        ensures { IfOk result (λ next. (V.origin next ≡ self.now.origin) × (V.log next ≡ take (length (V.log version.now) + 1) self.now.log)) }
    {
        V::one_judgement();
        self.history();
        let entry = self.current().entry(version.number());
        match version.advance(self.alloc, entry, steps) {
            Ok(next) => Ok(next),
            Err(Denied::NoMemory) => Err(NoMemory),
            Err(Denied::Refused(_)) => unreachable!(),
        }
    }
}
