//! What a session keeps between its lines.

ghost use Rattle.std.specs.Prelude.{◌≡◌, ◌<◌, ◌^◌, length, None};
ghost use Rattle.std.specs.Str.{bytes_eq};
ghost use Rattle.session_host.specs.Exchanges.{stage_line};
ghost use Rattle.session_host.specs.Told.{Answered, KeepsSeat, Talks, TalksOutside, TalksWithin};

use crate::draft::Draft;
use cim_words::NoMemory;
use desk::RoomName;
use grid_out::Gate;
use line_serve::Next;
use room_console::{Console, Room};
use room_words::SharedDifference;
use staging::ends_document;
use std::alloc::Global;
use std::marker::Model;
use std::sync::Wait;
use std::sync::ledger::{Blank, Ledger};
use step_count::Steps;
use versions::Version;

/// What a session keeps between its lines: the difference that it has staged, the document that has begun, how many requests were read,
/// and the counter of steps.
#[derive(Drop)]
pub(crate) struct Talk<L: Ledger> {
    pub(crate) staged: Option<SharedDifference>,
    pub(crate) draft: Option<Draft>,
    requests: u64,
    pub(crate) steps: Steps<L>,
}

impl<L: Ledger> Model for Talk<L> {
    ghost use Rattle.session_host.specs.Told.{TalkState};

    ghost Value = { TalkState };

    ghost view = { λ talk. record { staged = talk.staged; draft = talk.draft } };
}

impl<L: Ledger> Talk<L> {
    /// Before the first line.
    pub(crate) fn new(blank: Blank) -> Talk<L>
        requires name { blank.name ≡ L.name }
        requires parts { blank.parts ≡ L.parts }
        requires some { blank.parts ≡ 1 }
        ensures { result ≡ record { staged = None; draft = None } }
    {
        Talk {
            staged: None,
            draft: None,
            requests: 0,
            steps: Steps::<L>::of(blank),
        }
    }

    /// Passes the gate with the next request.
    fn pass<R: Wait, G: Gate>(&mut self, rt: &R, gate: &G, console: u8)
        ensures { self.new ≡ self.old }
    {
        self.requests = self.requests.saturating_add(1);
        gate.passed(rt, console, self.requests);
    }

    /// Answers a line, within the document that has begun or outside one.
    pub(crate) fn line<R: Wait, N: RoomName, G: Gate>(
        &mut self,
        rt: &R,
        alloc: Global,
        console: &mut Console<Version, N>,
        room: &Room<Version, N>,
        gate: &G,
        line: &[u8],
        out: &mut Vec<u8>,
    ) -> Result<Next, NoMemory>
        requires { length console.old.reader.founds < 2 ^ 63 }
        ensures seat { KeepsSeat console.old console.new }
        ensures answers { Answered result out.old.items out.new.items (λ answer. Talks self.old console.old line.now answer self.new console.new) }
    {
        match self.draft.take() {
            None => self.outside(rt, alloc, console, room, gate, line, out),
            Some(draft) => self.within(rt, alloc, draft, console, gate, line, out),
        }
    }

    /// Answers a line outside a document.
    fn outside<R: Wait, N: RoomName, G: Gate>(
        &mut self,
        rt: &R,
        alloc: Global,
        console: &mut Console<Version, N>,
        room: &Room<Version, N>,
        gate: &G,
        line: &[u8],
        out: &mut Vec<u8>,
    ) -> Result<Next, NoMemory>
        requires looks { length console.old.reader.founds < 2 ^ 63 }
        requires no_draft { self.old.draft ≡ None }
        ensures seat { KeepsSeat console.old console.new }
        ensures answers { Answered result out.old.items out.new.items (λ answer. TalksOutside self.old console.old line.now answer self.new console.new) }
    {
        if begins_document(line) {
            self.draft = Some(Draft::new(alloc));
            return Ok(Next::Go);
        }
        self.pass(rt, gate, console.console());
        self.ask(rt, alloc, console, room, line, out)
    }

    /// Takes a line of a document, and answers what that stages where it ends there.
    fn within<R: Wait, N: RoomName, G: Gate>(
        &mut self,
        rt: &R,
        alloc: Global,
        mut draft: Draft,
        console: &Console<Version, N>,
        gate: &G,
        line: &[u8],
        out: &mut Vec<u8>,
    ) -> Result<Next, NoMemory>
        requires { self.old.draft ≡ None }
        ensures answers { Answered result out.old.items out.new.items (λ answer. TalksWithin draft self.old console.now line.now answer self.new console.now) }
    {
        draft.add(line);
        if !ends_document(line) {
            self.draft = Some(draft);
            return Ok(Next::Go);
        }
        self.pass(rt, gate, console.console());
        self.stage(alloc, draft, out)
    }
}

/// Whether a document begins after a line.
fn begins_document(line: &[u8]) -> bool
    ensures { result ≡ bytes_eq line.now stage_line }
{
    line == b"stage".as_slice()
}
