//! Consoles that take their places at the doors, and leave them again.

ghost use Rattle.std.specs.Prelude.{◌≡◌, ◌≤◌, ℕ, [], length, map, vec_capacity, IfErr, IfOk};
ghost use Rattle.room_run.specs.Standing.{AllFresh, counts_of, doors_of, posts_of};
ghost use Rattle.session_host.specs.Doors.{door_shown};

use cim_words::NoMemory;
use desk::RoomName;
use grid_out::Door;
use line_serve::LineRoom;
use room_console::Console;
use session_host::{DoorEnd, Stand};
use std::alloc::Global;
use versions::Version;

/// All consoles at their doors, and empty lists with room for what is taken apart at the end.
#[derive(Drop)]
pub(crate) struct Standing<D: Door, N: RoomName> {
    pub(crate) stands: Vec<Stand<D, N>>,
    pub(crate) consoles: Vec<Console<Version, N>>,
    pub(crate) doors: Vec<D>,
    pub(crate) ends: Vec<DoorEnd>,
}

/// Each console takes its place at its door, the first one at the first. The doors come back where memory does not suffice.
pub(crate) fn stand_all<D: Door + Drop, N: RoomName>(
    alloc: Global,
    consoles: Vec<Console<Version, N>>,
    doors: Vec<D>,
) -> Result<Standing<D, N>, Vec<D>>
    requires { length doors.items ≡ length consoles.items }
    ensures posts { IfOk result (λ standing. posts_of standing.stands.items ≡ consoles.items) }
    ensures doors { IfOk result (λ standing. doors_of standing.stands.items ≡ map (door_shown (record { number = D.number; faults = D.faults; coming = D.coming; back = D.back; lent = D.lent; left = D.L.left; written = D.L.written; read_faults = D.L.read_faults; write_faults = D.L.write_faults })) doors.items) }
    ensures fresh { IfOk result (λ standing. AllFresh standing.stands.items) }
    ensures emptied { IfOk result (λ standing. (standing.consoles.items ≡ []) × (standing.doors.items ≡ []) × (standing.ends.items ≡ [])) }
    ensures space { IfOk result (λ standing. (length standing.stands.items ≤ vec_capacity standing.consoles)
        × (length standing.stands.items ≤ vec_capacity standing.doors) × (length standing.stands.items ≤ vec_capacity standing.ends)) }
    ensures err { IfErr result (λ back. back.items ≡ doors.items) }
{
    match Places::reserve(alloc, doors.len()) {
        Ok(places) => Ok(places.fill(consoles, doors)),
        Err(NoMemory) => Err(doors),
    }
}

/// The memory for so many consoles at their doors.
#[derive(Drop)]
struct Places<D: Door, N: RoomName> {
    rooms: Vec<LineRoom>,
    stands: Vec<Stand<D, N>>,
    ends: Vec<DoorEnd>,
}

impl<D: Door + Drop, N: RoomName> Places<D, N> {
    fn reserve(alloc: Global, count: usize) -> Result<Places<D, N>, NoMemory>
        ensures rooms { IfOk result (λ places. length places.rooms.items ≡ count) }
        ensures stands { IfOk result (λ places. (places.stands.items ≡ []) × (count ≤ vec_capacity places.stands)) }
        ensures ends { IfOk result (λ places. (places.ends.items ≡ []) × (count ≤ vec_capacity places.ends)) }
    {
        Ok(Places {
            rooms: line_rooms(alloc, count)?,
            stands: Vec::with_capacity(alloc, count)?,
            ends: Vec::with_capacity(alloc, count)?,
        })
    }

    fn fill(self, mut consoles: Vec<Console<Version, N>>, mut doors: Vec<D>) -> Standing<D, N>
        requires rooms { length self.rooms.items ≡ length doors.items }
        requires stands { (self.stands.items ≡ []) × (length doors.items ≤ vec_capacity self.stands) }
        requires ends { (self.ends.items ≡ []) × (length doors.items ≤ vec_capacity self.ends) }
        requires consoles { length doors.items ≡ length consoles.items }
        ensures posts { posts_of result.stands.items ≡ consoles.items }
        ensures doors { doors_of result.stands.items ≡ map (door_shown (record { number = D.number; faults = D.faults; coming = D.coming; back = D.back; lent = D.lent; left = D.L.left; written = D.L.written; read_faults = D.L.read_faults; write_faults = D.L.write_faults })) doors.items }
        ensures fresh { AllFresh result.stands.items }
        ensures emptied { (result.consoles.items ≡ []) × (result.doors.items ≡ []) × (result.ends.items ≡ []) }
        ensures space { (length result.stands.items ≤ vec_capacity result.consoles)
            × (length result.stands.items ≤ vec_capacity result.doors) × (length result.stands.items ≤ vec_capacity result.ends) }
    {
        let Places {
            mut rooms,
            mut stands,
            ends,
        } = self;
        while !doors.is_empty() {
            let (console, door, lines) = (consoles.remove(0), doors.remove(0), rooms.remove(0));
            stands.push_reserved(Stand::new(console, door, lines));
        }
        Standing {
            stands,
            consoles,
            doors,
            ends,
        }
    }
}

/// As many line rooms.
fn line_rooms(alloc: Global, count: usize) -> Result<Vec<LineRoom>, NoMemory>
    ensures { IfOk result (λ rooms. length rooms.items ≡ count) }
{
    let mut rooms = Vec::with_capacity(alloc, count)?;
    for _ in 0..count {
        rooms.push(LineRoom::new(alloc)?)?;
    }
    Ok(rooms)
}

impl<D: Door + Drop, N: RoomName> Standing<D, N> {
    /// The consoles leave their doors.
    pub(crate) fn take_down(self) -> (Vec<Console<Version, N>>, Vec<D>, Vec<DoorEnd>)
        requires emptied { (self.consoles.items ≡ []) × (self.doors.items ≡ []) × (self.ends.items ≡ []) }
        requires space { (length self.stands.items ≤ vec_capacity self.consoles)
            × (length self.stands.items ≤ vec_capacity self.doors) × (length self.stands.items ≤ vec_capacity self.ends) }
        ensures posts { result.0.items ≡ posts_of self.stands.items }
        ensures doors { map (door_shown (record { number = D.number; faults = D.faults; coming = D.coming; back = D.back; lent = D.lent; left = D.L.left; written = D.L.written; read_faults = D.L.read_faults; write_faults = D.L.write_faults })) result.1.items ≡ doors_of self.stands.items }
        ensures counts { result.2.items ≡ counts_of self.stands.items }
    {
        let Standing {
            mut stands,
            mut consoles,
            mut doors,
            mut ends,
        } = self;
        while !stands.is_empty() {
            let (console, door, end) = stands.remove(0).into_parts();
            consoles.push_reserved(console);
            doors.push_reserved(door);
            ends.push_reserved(end);
        }
        (consoles, doors, ends)
    }
}
