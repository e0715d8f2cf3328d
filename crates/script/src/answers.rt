//! What a console is answered.

ghost use Rattle.std.specs.Prelude.{◌≡◌, ◌++◌, [], ℕ, List, OnOk};
ghost use Rattle.desk.specs.Consoles.{IsConsole};
ghost use Rattle.room_core.specs.Views.{IsEvent};
ghost use Rattle.script.specs.Answers.{AnswersRequest, CutsOver, Steps as IsStepped, Traces, reply_to_step};
ghost use Rattle.script.specs.Rehearsal.{staged_by};
ghost use Rattle.script.specs.Staging.{StagesKept};

use crate::open_document::Staging;
use crate::rehearsal::Rehearsal;
use board::Dated;
use cim_words::{Id, NoMemory, PhaseSet};
use difference::DiffFault;
use room_core::{CoreEvent, CoreReply};
use room_words::{Event, Fault, Reply, SharedDifference};
use shared_parts::Share;
use std::sync::ledger::Ledger;
use versions::TraceNo;
use wire::{Request, write_reply};

impl<L: Ledger> Rehearsal<L> {
    /// Answers a request of a console. One that stages a document comes with a document of no lines.
    pub(crate) fn answer(
        &mut self,
        console: u8,
        request: Request,
        into: &mut Vec<u8>,
    ) -> Result<(), NoMemory>
        requires { IsConsole console }
        ensures { OnOk result ((text : List ℕ) × (into.new.items ≡ into.old.items ++ text) × AnswersRequest self.old console [] request text self.new) }
    {
        match request {
            Request::Act(act) => {
                let event = Event::Act(act);
                self.step(&CoreEvent::Submit { console, event }, into)
            }
            Request::Look(at) => self.step(&CoreEvent::Look { console, at }, into),
            Request::Trace { start, phases } => self.trace(console, start, phases, into),
            Request::Stage => self.stage(Staging::of(self.alloc, console), into),
            Request::Cutover => self.cut_over(console, into),
            Request::Bye => write_reply(&Reply::Bye, into),
        }
    }

    /// Makes a step in the room, and tells its reply.
    fn step(&mut self, event: &CoreEvent, into: &mut Vec<u8>) -> Result<(), NoMemory>
        requires { IsEvent event.now }
        ensures { OnOk result ((text : List ℕ) × (into.new.items ≡ into.old.items ++ text) × IsStepped self.old event.now text self.new) }
    {
        let reply = self.room.step(event, &mut self.steps)?;
        write_reply(&told(reply), into)
    }

    /// Traces through the network that a console has seen.
    fn trace(
        &mut self,
        console: u8,
        start: Id,
        phases: PhaseSet,
        into: &mut Vec<u8>,
    ) -> Result<(), NoMemory>
        requires { IsConsole console }
        ensures { OnOk result ((text : List ℕ) × (into.new.items ≡ into.old.items ++ text) × Traces self.old console start.number phases text self.new) }
    {
        let version = self.room.shown(console);
        match version.trace_text(self.alloc, start, phases, into) {
            Ok(()) => Ok(()),
            Err(TraceNo::NoSuch) => write_reply(&Reply::NoSuch(version.number()), into),
            Err(TraceNo::NoMemory) => Err(NoMemory),
        }
    }

    /// Submits what a console has staged, which is spent where it is accepted.
    fn cut_over(&mut self, console: u8, into: &mut Vec<u8>) -> Result<(), NoMemory>
        requires { IsConsole console }
        ensures { OnOk result ((text : List ℕ) × (into.new.items ≡ into.old.items ++ text) × CutsOver (staged_by self.old console) self.old console text self.new) }
    {
        let Some(staged) = &self.staged[console as usize - 1] else {
            return write_reply(&Reply::Fault(Fault::Staged), into);
        };
        let event = Event::Cutover(staged.share()?);
        let reply = self
            .room
            .step(&CoreEvent::Submit { console, event }, &mut self.steps)?;
        if let CoreReply::Made(_) = reply {
            self.staged[console as usize - 1] = None;
        }
        write_reply(&told(reply), into)
    }

    /// Stages a document for its console, in place of what that had staged.
    pub(crate) fn stage(&mut self, staging: Staging, into: &mut Vec<u8>) -> Result<(), NoMemory>
        ensures { OnOk result ((text : List ℕ) × (into.new.items ≡ into.old.items ++ text) × StagesKept self.old staging text self.new) }
    {
        match staging.read(self.alloc) {
            Ok(difference) => {
                difference.possible();
                let reply = Reply::Staged {
                    pre: difference.pre().len() as u32,
                    rev: difference.rev().len() as u32,
                    fwd: difference.fwd().len() as u32,
                };
                let shared = SharedDifference::of(self.alloc, difference)?;
                self.staged[staging.console() as usize - 1] = Some(shared);
                write_reply(&reply, into)
            }
            Err(DiffFault::Stage(fault)) => write_reply(&Reply::Fault(Fault::Stage(fault)), into),
            Err(DiffFault::NoMemory) => Err(NoMemory),
        }
    }
}

/// How a step of the room is told.
fn told(reply: CoreReply) -> Reply
    ensures { result ≡ reply_to_step reply }
{
    match reply {
        CoreReply::Made(receipt) => Reply::Ok(receipt.number),
        CoreReply::Refused(refused) => Reply::No(refused),
        CoreReply::Looked(number) | CoreReply::Shown(number) => Reply::Seen(number),
        CoreReply::NoPrefix => Reply::Fault(Fault::Prefix),
    }
}
