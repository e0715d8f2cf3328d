//! One session of a console over a link.

ghost use Rattle.std.specs.Prelude.{ℕ, ◌≡◌, ◌+◌, ◌-◌, ◌<◌, ◌≤◌, ◌^◌, List, length, None, Some, Ok, Err, IfOk, OnErr};
ghost use Rattle.cim_words.specs.declared.statement.Statement.{Statement};
ghost use Rattle.desk.specs.Ends.{number_of};
ghost use Rattle.grid_out.specs.Faults.{CountsFaults};
ghost use Rattle.line_serve.specs.AnsweredLines.{Answer, most_input};
ghost use Rattle.line_serve.specs.Served.{LeavesNothing, is_read_fault, is_write_fault};
ghost use Rattle.session_host.specs.Sessions.{IsHeard, StaysSeated};
ghost use Rattle.session_host.specs.Told.{KeepsSeat, Talks};
ghost use Rattle.session_host.specs.Views.{view_of};

use crate::talk::Talk;
use cim_words::NoMemory;
use desk::RoomName;
use grid_out::{Gate, Link};
use line_serve::{Answerer, LineRoom, LinesEnd, Next, serve_lines};
use room_console::{Console, Room};
use staging::kept_documents_are_read;
use std::alloc::Global;
use std::marker::Brand;
use std::sync::Wait;
use std::sync::ledger::{Blank, Ledger};
use versions::Version;
use wire::a_stage_is_one_word;

/// How a session ended.
pub use line_serve::LinesEnd as SessionEnd;

/// A console at work in a session. All of it is lent, so that the console goes back as the session leaves it.
#[derive(Drop)]
struct Session<'a, N: RoomName, G: Gate, L: Ledger> {
    console: &'a mut Console<Version, N>,
    room: &'a Room<Version, N>,
    gate: &'a G,
    talk: &'a mut Talk<L>,
}

impl<'a, N: RoomName, G: Gate, L: Ledger> Answerer for Session<'a, N, G, L> {
    // The console stays the one that was lent.
    ghost answers = { λ before line answer after. Talks before.talk.now before.console.now line answer after.talk.now after.console.now
        × KeepsSeat before.console.now after.console.now × (after.console.ghost_name ≡ before.console.ghost_name) };

    ghost patience = { λ session. 2 ^ 63 - length session.console.now.reader.founds };

    fn line<R: Wait>(
        &mut self,
        rt: &R,
        alloc: Global,
        line: &[u8],
        out: &mut Vec<u8>,
    ) -> Result<Next, NoMemory> {
        self.talk
            .line(rt, alloc, self.console, self.room, self.gate, line, out)
    }
}

/// Serves a console to a peer, from the first request to the session's end. The gate is passed once a request was read and before it is
/// judged. Nothing that was staged stays for the next session. Where memory does not suffice for a request, its reply is `memory`.
pub fn serve_session<R: Wait, N: RoomName, L: Link, G: Gate>(
    rt: &R,
    alloc: Global,
    console: &mut Console<Version, N>,
    room: &Room<Version, N>,
    link: &mut L,
    gate: &G,
    lines: &mut LineRoom,
) -> SessionEnd
    requires { length console.old.reader.founds + most_input ≤ 2 ^ 63 }
    ensures heard { (base : List Statement) → console.old.reader.origin ≡ Some base → IsHeard base (number_of console.old)
        (view_of console.old) result (view_of console.new)
        (record { left = L.left link.old; written = L.written link.old })
        (record { left = L.left link.new; written = L.written link.new }) }
    ensures seated { StaysSeated console.old console.new }
    ensures nothing_left { LeavesNothing result (L.left link.old) (L.left link.new) }
    ensures read_cause { CountsFaults (L.read_faults link.old) (L.read_faults link.new) (is_read_fault result) }
    ensures write_cause { CountsFaults (L.write_faults link.old) (L.write_faults link.new) (is_write_fault result) }
{
    serve_counted::<R, N, L, G, Brand>(rt, alloc, console, room, link, gate, lines, Blank::new(1))
}

/// The same, with a ledger for the counter of steps.
fn serve_counted<R: Wait, N: RoomName, L: Link, G: Gate, S: Ledger>(
    rt: &R,
    alloc: Global,
    console: &mut Console<Version, N>,
    room: &Room<Version, N>,
    link: &mut L,
    gate: &G,
    lines: &mut LineRoom,
    blank: Blank,
) -> SessionEnd
    requires looks { length console.old.reader.founds + most_input ≤ 2 ^ 63 }
    requires name { blank.name ≡ S.name }
    requires parts { blank.parts ≡ S.parts }
    requires some { blank.parts ≡ 1 }
    ensures heard { (base : List Statement) → console.old.reader.origin ≡ Some base → IsHeard base (number_of console.old)
        (view_of console.old) result (view_of console.new)
        (record { left = L.left link.old; written = L.written link.old })
        (record { left = L.left link.new; written = L.written link.new }) }
    ensures seated { StaysSeated console.old console.new }
    ensures nothing_left { LeavesNothing result (L.left link.old) (L.left link.new) }
    ensures read_cause { CountsFaults (L.read_faults link.old) (L.read_faults link.new) (is_read_fault result) }
    ensures write_cause { CountsFaults (L.write_faults link.old) (L.write_faults link.new) (is_write_fault result) }
{
    let mut talk = Talk::<S>::new(blank);
    let mut session = Session {
        console,
        room,
        gate,
        talk: &mut talk,
    };
    serve_all(rt, alloc, link, &mut session, lines)
}

/// Answers all lines of a session that begins.
fn serve_all<R: Wait, N: RoomName, L: Link, G: Gate, S: Ledger>(
    rt: &R,
    alloc: Global,
    link: &mut L,
    session: &mut Session<'_, N, G, S>,
    lines: &mut LineRoom,
) -> SessionEnd
    requires looks { length session.old.console.now.reader.founds + most_input ≤ 2 ^ 63 }
    requires begins { session.old.talk.now ≡ record { staged = None; draft = None } }
    ensures same { session.new.console.ghost_name ≡ session.old.console.ghost_name }
    ensures heard { (base : List Statement) → session.old.console.now.reader.origin ≡ Some base → IsHeard base (number_of session.old.console.now)
        (view_of session.old.console.now) result (view_of session.new.console.now)
        (record { left = L.left link.old; written = L.written link.old })
        (record { left = L.left link.new; written = L.written link.new }) }
    ensures seated { StaysSeated session.old.console.now session.new.console.now }
    ensures nothing_left { LeavesNothing result (L.left link.old) (L.left link.new) }
    ensures read_cause { CountsFaults (L.read_faults link.old) (L.read_faults link.new) (is_read_fault result) }
    ensures write_cause { CountsFaults (L.write_faults link.old) (L.write_faults link.new) (is_write_fault result) }
{
    a_stage_is_one_word();
    kept_documents_are_read();
    serve_lines(rt, alloc, link, session, lines)
}
