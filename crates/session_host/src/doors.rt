//! Consoles that are offered at doors, each to one peer after another.

ghost use Rattle.std.specs.Prelude.{ℕ, ◌≡◌, ◌+◌, ◌<◌, ◌≤◌, ◌^◌, length, false, slice_index_or, IfSome, IfNone, IsTrue};
ghost use Rattle.line_serve.specs.AnsweredLines.{most_input};
ghost use Rattle.session_host.specs.Doors.{AtDoor, ComesNext, ComesNoMore, IsFresh, ServedItsDoor, Serves, door_shown, link_shown};

use crate::door_end::DoorEnd;
use crate::session::serve_session;
use desk::RoomName;
use grid_out::{Door, Failed, Gate};
use line_serve::LineRoom;
use room_console::{Console, Room};
use std::alloc::Global;
use std::marker::Model;
use std::sync::Wait;
use std::thread::{Threads, for_each_mut};
use versions::Version;

/// A console, the door at which it is offered, the memory that its sessions are served with, and how they ended.
#[derive(Drop)]
pub struct Stand<D: Door, N: RoomName> {
    /// The console.
    pub console: Console<Version, N>,
    /// Its door.
    pub door: D,
    /// What its sessions are served with, one after another.
    pub lines: LineRoom,
    /// How its sessions ended.
    pub end: DoorEnd,
}

impl<D: Door, N: RoomName> Model for Stand<D, N> {
    ghost use Rattle.session_host.specs.Doors.{AtDoor, door_shown};

    ghost Value = { AtDoor };

    ghost view = { λ stand. record {
      post = stand.console;
      door = door_shown (record { number = D.number; faults = D.faults; coming = D.coming; back = D.back; lent = D.lent; left = D.L.left; written = D.L.written; read_faults = D.L.read_faults; write_faults = D.L.write_faults }) stand.door;
      counted = stand.end;
    } };
}

/// Serves all doors, each by its console in a thread of its own: a door is asked for one link after another until it gives no more or
/// fails, each link is served to its session's end, and then it goes back to the door.
pub fn serve_doors<
    R: Threads + Wait + Sync,
    N: RoomName + Send + Sync,
    D: Door + Send,
    G: Gate + Sync,
>(rt: &R, alloc: Global, room: &Room<Version, N>, stands: &mut [Stand<D, N>], gate: &G)
where
    D::L: Send,
    requires looks { (index : ℕ) (stand : AtDoor) → index < length stands.old → length (slice_index_or stands.old index stand).post.reader.founds ≤ 2 ^ 62 }
    requires fresh { (index : ℕ) (stand : AtDoor) → index < length stands.old → IsFresh (slice_index_or stands.old index stand).counted }
    ensures count { length stands.new ≡ length stands.old }
    ensures each { (index : ℕ) (stand : AtDoor) → index < length stands.old → ServedItsDoor (slice_index_or stands.old index stand) (slice_index_or stands.new index stand) }
{
    let threads = stands.len().max(1);
    for_each_mut(
        rt,
        stands,
        threads,
        &|_index: usize, stand: &mut Stand<D, N>|
            requires looks { length stand.old.post.reader.founds ≤ 2 ^ 62 }
            requires fresh { IsFresh stand.old.counted }
            ensures { ServedItsDoor stand.old stand.new }
        {
            stand.serve(rt, alloc, room, gate);
        },
    );
}

impl<D: Door, N: RoomName> Stand<D, N> {
    /// A console at its door, before the first session.
    pub fn new(console: Console<Version, N>, door: D, lines: LineRoom) -> Stand<D, N>
        ensures post { result.post ≡ console }
        ensures door { result.door ≡ door_shown (record { number = D.number; faults = D.faults; coming = D.coming; back = D.back; lent = D.lent; left = D.L.left; written = D.L.written; read_faults = D.L.read_faults; write_faults = D.L.write_faults }) door }
        ensures fresh { IsFresh result.counted }
    {
        Stand {
            console,
            door,
            lines,
            end: DoorEnd::new(),
        }
    }

    /// The console, the door and how its sessions ended.
    pub fn into_parts(self) -> (Console<Version, N>, D, DoorEnd)
        ensures post { result.0 ≡ self.post }
        ensures door { door_shown (record { number = D.number; faults = D.faults; coming = D.coming; back = D.back; lent = D.lent; left = D.L.left; written = D.L.written; read_faults = D.L.read_faults; write_faults = D.L.write_faults }) result.1 ≡ self.door }
        ensures counted { result.2 ≡ self.counted }
    {
        let Stand {
            console,
            door,
            lines: _,
            end,
        } = self;
        (console, door, end)
    }

    /// Serves this door until it gives no more or fails.
    fn serve<R: Wait, G: Gate>(&mut self, rt: &R, alloc: Global, room: &Room<Version, N>, gate: &G)
        requires looks { length self.old.post.reader.founds ≤ 2 ^ 62 }
        requires fresh { IsFresh self.old.counted }
        ensures { ServedItsDoor self.old self.new }
    {
        while let Some(link) = self.next_link() {
            self.visit(rt, alloc, room, gate, link);
        }
    }

    /// The next link of the door. A fault of the door is noted.
    fn next_link(&mut self) -> Option<D::L>
        requires { self.old.counted.failed ≡ false }
        ensures bounded { self.old.door.number < 2 ^ 32 }
        ensures post { self.new.post ≡ self.old.post }
        ensures some { IfSome result (λ link. ComesNext self.old.door self.new.door (link_shown (record { number = D.number; faults = D.faults; coming = D.coming; back = D.back; lent = D.lent; left = D.L.left; written = D.L.written; read_faults = D.L.read_faults; write_faults = D.L.write_faults }) link) × (self.new.counted ≡ self.old.counted)) }
        ensures none { IfNone result (ComesNoMore self.old self.new) }
    {
        match self.door.next() {
            Ok(link) => link,
            Err(Failed) => {
                self.end.failed = true;
                None
            }
        }
    }

    /// Serves one link to its session's end, and gives it back.
    fn visit<R: Wait, G: Gate>(
        &mut self,
        rt: &R,
        alloc: Global,
        room: &Room<Version, N>,
        gate: &G,
        mut link: D::L,
    )
        requires looks { length self.old.post.reader.founds + most_input ≤ 2 ^ 63 }
        requires lent { IsTrue self.old.door.lent }
        ensures visited { Serves self.old self.new (link_shown (record { number = D.number; faults = D.faults; coming = D.coming; back = D.back; lent = D.lent; left = D.L.left; written = D.L.written; read_faults = D.L.read_faults; write_faults = D.L.write_faults }) link) }
    {
        let ended = serve_session(
            rt,
            alloc,
            &mut self.console,
            room,
            &mut link,
            gate,
            &mut self.lines,
        );
        self.end = self.end.with(ended);
        self.door.done(link);
    }
}
