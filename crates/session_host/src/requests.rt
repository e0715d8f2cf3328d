//! The requests of a session, each with its reply.

ghost use Rattle.std.specs.Prelude.{◌≡◌, ◌⊎◌, ◌+◌, ◌<◌, ◌≤◌, ◌^◌, [], length, None, vec_len, vec_capacity};
ghost use Rattle.desk.specs.Ends.{number_of};
ghost use Rattle.room_words.specs.declared.event.Event.TheVariants as event;
ghost use Rattle.room_words.specs.declared.reply.Reply.TheVariants as reply;
ghost use Rattle.session_host.specs.Replies.{AnswersLine, AnswersRequest, CutsOver, Looks, Submits, Traces, staged_after};
ghost use Rattle.session_host.specs.Told.{Ever, IsTold, KeepsSeat, Replied, StagesDraft, TellsFault, next_of, state_of};
ghost use Rattle.session_host.specs.Views.{View, view_of};
ghost use Rattle.wire.specs.Replies.{IsBrief, reply_room};

use crate::draft::Draft;
use crate::submits::{look, submit};
use crate::talk::Talk;
use board::Dated;
use cim_words::{Id, NoMemory, PhaseSet};
use desk::RoomName;
use difference::DiffFault;
use line_serve::Next;
use room_console::{Console, Room};
use room_words::{Act, Event, Fault, Reply, SharedDifference};
use shared_parts::Share;
use std::alloc::Global;
use std::sync::Wait;
use std::sync::ledger::Ledger;
use versions::{TraceNo, Version};
use wire::{REPLY_ROOM, Request, read_request, write_reply};

impl<L: Ledger> Talk<L> {
    /// Answers a line that asks something, once there is room for the reply.
    pub(crate) fn ask<R: Wait, N: RoomName>(
        &mut self,
        rt: &R,
        alloc: Global,
        console: &mut Console<Version, N>,
        room: &Room<Version, N>,
        line: &[u8],
        out: &mut Vec<u8>,
    ) -> Result<Next, NoMemory>
        requires { length console.old.reader.founds < 2 ^ 63 }
        ensures seat { KeepsSeat console.old console.new }
        ensures draft { self.new.draft ≡ self.old.draft }
        ensures answers { Replied result out.old.items out.new.items (λ told. Ever console.old console.new (λ base history.
            AnswersLine base history (number_of console.old) line.now [] (state_of self.old console.old) told (state_of self.new console.new))) }
    {
        let request = read_request(line, false);
        if out.reserve(REPLY_ROOM).is_err() {
            return Err(NoMemory);
        }
        match request {
            Ok(request) => self.answer(rt, alloc, console, room, request, out),
            Err(fault) => tell(Reply::Fault(fault), out),
        }
    }

    /// Answers a request. One that stages a document comes with a document of no lines.
    fn answer<R: Wait, N: RoomName>(
        &mut self,
        rt: &R,
        alloc: Global,
        console: &mut Console<Version, N>,
        room: &Room<Version, N>,
        request: Request,
        out: &mut Vec<u8>,
    ) -> Result<Next, NoMemory>
        requires looks { length console.old.reader.founds < 2 ^ 63 }
        requires space { vec_len out.old + reply_room ≤ vec_capacity out.old }
        ensures seat { KeepsSeat console.old console.new }
        ensures draft { self.new.draft ≡ self.old.draft }
        ensures answers { Replied result out.old.items out.new.items (λ told. Ever console.old console.new (λ base history.
            AnswersRequest base history (number_of console.old) [] request (state_of self.old console.old) told (state_of self.new console.new))) }
    {
        match request {
            Request::Act(act) => self.act(rt, alloc, console, room, act, out),
            Request::Look(_) => tell_seen(console, out),
            Request::Trace { start, phases } => trace(alloc, console, start, phases, out),
            Request::Stage => self.stage_nothing(alloc, out),
            Request::Cutover => self.cut_over(rt, alloc, console, room, out),
            Request::Bye => tell(Reply::Bye, out),
        }
    }

    /// Submits a switching order.
    fn act<R: Wait, N: RoomName>(
        &mut self,
        rt: &R,
        alloc: Global,
        console: &mut Console<Version, N>,
        room: &Room<Version, N>,
        act: Act,
        out: &mut Vec<u8>,
    ) -> Result<Next, NoMemory>
        requires looks { length console.old.reader.founds < 2 ^ 63 }
        requires space { vec_len out.old + reply_room ≤ vec_capacity out.old }
        ensures seat { KeepsSeat console.old console.new }
        ensures kept { self.new ≡ self.old }
        ensures answers { Replied result out.old.items out.new.items (λ told. Ever console.old console.new (λ base history.
            Submits base history (number_of console.old) (event.Act act) (view_of console.old) told (view_of console.new))) }
    {
        let reply = submit(rt, alloc, console, room, &Event::Act(act), &mut self.steps);
        tell(reply, out)
    }

    /// Submits what is staged, which is spent where it is accepted.
    fn cut_over<R: Wait, N: RoomName>(
        &mut self,
        rt: &R,
        alloc: Global,
        console: &mut Console<Version, N>,
        room: &Room<Version, N>,
        out: &mut Vec<u8>,
    ) -> Result<Next, NoMemory>
        requires looks { length console.old.reader.founds < 2 ^ 63 }
        requires space { vec_len out.old + reply_room ≤ vec_capacity out.old }
        ensures seat { KeepsSeat console.old console.new }
        ensures draft { self.new.draft ≡ self.old.draft }
        ensures answers { Replied result out.old.items out.new.items (λ told. Ever console.old console.new (λ base history.
            CutsOver base history (number_of console.old) self.old.staged (state_of self.old console.old) told (state_of self.new console.new))) }
    {
        let Some(staged) = &self.staged else {
            return tell(Reply::Fault(Fault::Staged), out);
        };
        let Ok(shared) = staged.share() else {
            return Err(NoMemory);
        };
        let event = Event::Cutover(shared);
        let reply = submit(rt, alloc, console, room, &event, &mut self.steps);
        self.spend(&reply);
        tell(reply, out)
    }

    /// Spends what is staged, where it was accepted.
    fn spend(&mut self, reply: &Reply)
        ensures { self.new ≡ record { staged = staged_after reply.now self.old.staged; draft = self.old.draft } }
    {
        if let Reply::Ok(_) = reply {
            self.staged = None;
        }
    }

    /// Stages a document of no lines.
    fn stage_nothing(&mut self, alloc: Global, out: &mut Vec<u8>) -> Result<Next, NoMemory>
        requires { vec_len out.old + reply_room ≤ vec_capacity out.old }
        ensures draft { self.new.draft ≡ self.old.draft }
        ensures staged { (view : View) → Replied result out.old.items out.new.items (λ told.
            StagesDraft (Some (Some [])) (record { view = view; staged = self.old.staged }) told (record { view = view; staged = self.new.staged })) }
    {
        self.stage(alloc, Draft::new(alloc), out)
    }

    /// Stages what a draft says, in place of what was staged.
    pub(crate) fn stage(
        &mut self,
        alloc: Global,
        draft: Draft,
        out: &mut Vec<u8>,
    ) -> Result<Next, NoMemory>
        ensures draft { self.new.draft ≡ self.old.draft }
        ensures staged { (view : View) → Replied result out.old.items out.new.items (λ told.
            StagesDraft draft (record { view = view; staged = self.old.staged }) told (record { view = view; staged = self.new.staged })) }
    {
        let Some(document) = draft.document() else {
            return Err(NoMemory);
        };
        if out.reserve(REPLY_ROOM).is_err() {
            return Err(NoMemory);
        }
        match document.read(alloc) {
            Ok(difference) => {
                difference.possible();
                let reply = Reply::Staged {
                    pre: difference.pre().len() as u32,
                    rev: difference.rev().len() as u32,
                    fwd: difference.fwd().len() as u32,
                };
                let Ok(shared) = SharedDifference::of(alloc, difference) else {
                    return Err(NoMemory);
                };
                self.staged = Some(shared);
                tell(reply, out)
            }
            Err(fault) => tell_fault(fault, out),
        }
    }
}

/// Tells why a document is not staged, for which there is room.
fn tell_fault(fault: DiffFault, out: &mut Vec<u8>) -> Result<Next, NoMemory>
    requires { vec_len out.old + reply_room ≤ vec_capacity out.old }
    ensures { Replied result out.old.items out.new.items (TellsFault fault) }
{
    match fault {
        DiffFault::Stage(fault) => tell(Reply::Fault(Fault::Stage(fault)), out),
        DiffFault::NoMemory => Err(NoMemory),
    }
}

/// Looks, and tells how many entries are seen.
fn tell_seen<N: RoomName>(
    console: &mut Console<Version, N>,
    out: &mut Vec<u8>,
) -> Result<Next, NoMemory>
    requires looks { length console.old.reader.founds < 2 ^ 63 }
    requires space { vec_len out.old + reply_room ≤ vec_capacity out.old }
    ensures seat { KeepsSeat console.old console.new }
    ensures answers { Replied result out.old.items out.new.items (λ told. Ever console.old console.new (λ base history.
        Looks base history (number_of console.old) (view_of console.old) told (view_of console.new))) }
{
    let count = look(console);
    tell(Reply::Seen(count), out)
}

/// Looks, and traces through the network that is seen then.
fn trace<N: RoomName>(
    alloc: Global,
    console: &mut Console<Version, N>,
    start: Id,
    phases: PhaseSet,
    out: &mut Vec<u8>,
) -> Result<Next, NoMemory>
    requires { length console.old.reader.founds < 2 ^ 63 }
    ensures seat { KeepsSeat console.old console.new }
    ensures answers { Replied result out.old.items out.new.items (λ told. Ever console.old console.new (λ base history.
        Traces base history (number_of console.old) start.number phases (view_of console.old) told (view_of console.new))) }
{
    look(console);
    let version = console.shown();
    match version.trace_text(alloc, start, phases, out) {
        Ok(()) => Ok(Next::Go),
        Err(TraceNo::NoSuch) => tell_no_such(version.number(), out),
        Err(TraceNo::NoMemory) => Err(NoMemory),
    }
}

/// Tells that there is no source, once there is room for that.
fn tell_no_such(at: u32, out: &mut Vec<u8>) -> Result<Next, NoMemory>
    ensures { Replied result out.old.items out.new.items (λ told. (told ≡ reply.NoSuch at) ⊎ (told ≡ reply.Memory)) }
{
    if out.reserve(REPLY_ROOM).is_err() {
        return Err(NoMemory);
    }
    tell(Reply::NoSuch(at), out)
}

/// Writes a reply, for which there is room.
fn tell(reply: Reply, out: &mut Vec<u8>) -> Result<Next, NoMemory>
    requires brief { IsBrief reply }
    requires space { vec_len out.old + reply_room ≤ vec_capacity out.old }
    ensures { IsTold reply result out.old.items out.new.items }
{
    if let Reply::Memory = reply {
        return Err(NoMemory);
    }
    let next = next_after(&reply);
    write_reply(&reply, out)?;
    Ok(next)
}

/// Whether the session goes on after a reply.
fn next_after(reply: &Reply) -> Next
    ensures { result ≡ next_of reply.now }
{
    match reply {
        Reply::Bye => Next::Bye,
        _ => Next::Go,
    }
}
