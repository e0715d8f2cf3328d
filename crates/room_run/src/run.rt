//! A room from its first version to its close.

ghost use Rattle.std.specs.Prelude.{◌≡◌, ◌<◌, ◌≤◌, [], length, map, IfErr, IfOk};
ghost use Rattle.room_run.specs.Runs.{IsRun};
ghost use Rattle.session_host.specs.Doors.{door_shown};

use crate::standing::{Standing, stand_all};
use cim_words::NoMemory;
use desk::{RoomName, RoomSeed};
use grid_out::{Door, Gate};
use room_console::{ClosedRoom, close_room, start_room};
use session_host::{DoorEnd, serve_doors};
use std::alloc::Global;
use std::marker::Brand;
use std::sync::Wait;
use std::thread::Threads;
use versions::Version;

/// What came of a room.
#[derive(Drop)]
pub struct Run<D: Door> {
    /// The room, closed: its last version has the whole history.
    pub closed: ClosedRoom<Version>,
    /// The doors, in their order.
    pub doors: Vec<D>,
    /// How the sessions of each door ended.
    pub ends: Vec<DoorEnd>,
}

/// Opens a room over a first version with a console for each door, serves all doors, each in a thread of its own, until each gives no more
/// or failed, and closes the room. The doors come back unasked where memory does not suffice; once they are asked, nothing is refused.
pub fn run_room<R: Threads + Wait + Sync, D: Door + Drop + Send, G: Gate + Sync>(
    rt: &R,
    alloc: Global,
    first: Version,
    doors: Vec<D>,
    gate: &G,
) -> Result<Run<D>, (NoMemory, Vec<D>)>
where
    D::L: Send,
    requires doors { (0 < length doors.items) × (length doors.items ≤ 16) }
    requires empty { first.log ≡ [] }
    ensures base { IfOk result (λ run. run.closed.last.base ≡ first.base) }
    ensures run { IfOk result (λ run. IsRun first.base run.closed.last.log
        (map (door_shown (record { number = D.number; faults = D.faults; coming = D.coming; back = D.back; lent = D.lent; left = D.L.left; written = D.L.written; read_faults = D.L.read_faults; write_faults = D.L.write_faults })) doors.items) (map (door_shown (record { number = D.number; faults = D.faults; coming = D.coming; back = D.back; lent = D.lent; left = D.L.left; written = D.L.written; read_faults = D.L.read_faults; write_faults = D.L.write_faults })) run.doors.items) run.ends.items) }
    ensures made { IfOk result (λ run. run.closed.made ≡ length run.closed.last.log) }
    ensures err { IfErr result (λ refused. refused.1.items ≡ doors.items) }
{
    let consoles = doors.len() as u8;
    match RoomSeed::make(alloc, first, consoles) {
        Ok(seed) => run_named::<R, Brand, D, G>(rt, alloc, seed, doors, gate),
        Err(_) => Err((NoMemory, doors)),
    }
}

/// The same of a seed that a name is of.
fn run_named<
    R: Threads + Wait + Sync,
    N: RoomName + Send + Sync,
    D: Door + Drop + Send,
    G: Gate + Sync,
>(
    rt: &R,
    alloc: Global,
    seed: RoomSeed<Version>,
    doors: Vec<D>,
    gate: &G,
) -> Result<Run<D>, (NoMemory, Vec<D>)>
where
    D::L: Send,
    requires ledger { (seed.ledger ≡ N.name) × (seed.consoles ≡ N.parts) }
    requires board { (seed.board ≡ N.board) × (seed.consoles ≡ N.posts) }
    requires doors { (0 < length doors.items) × (length doors.items ≡ seed.consoles) }
    ensures base { IfOk result (λ run. run.closed.last.base ≡ seed.first.base) }
    ensures run { IfOk result (λ run. IsRun seed.first.base run.closed.last.log
        (map (door_shown (record { number = D.number; faults = D.faults; coming = D.coming; back = D.back; lent = D.lent; left = D.L.left; written = D.L.written; read_faults = D.L.read_faults; write_faults = D.L.write_faults })) doors.items) (map (door_shown (record { number = D.number; faults = D.faults; coming = D.coming; back = D.back; lent = D.lent; left = D.L.left; written = D.L.written; read_faults = D.L.read_faults; write_faults = D.L.write_faults })) run.doors.items) run.ends.items) }
    ensures made { IfOk result (λ run. run.closed.made ≡ length run.closed.last.log) }
    ensures err { IfErr result (λ refused. refused.1.items ≡ doors.items) }
{
    let Ok((room, consoles)) = start_room::<Version, N>(alloc, seed) else {
        return Err((NoMemory, doors));
    };
    let mut standing = match stand_all(alloc, consoles, doors) {
        Ok(standing) => standing,
        Err(doors) => return Err((NoMemory, doors)),
    };
    serve_doors(rt, alloc, &room, standing.stands.as_mut_slice(), gate);
    let (consoles, doors, ends) = standing.take_down();
    let closed = close_room(room, consoles);
    Ok(Run {
        closed,
        doors,
        ends,
    })
}
