//! Rooms that are opened, worked in by threads, and closed.

ghost use Rattle.std.specs.Prelude.{◌≡◌, ◌<◌, ◌≤◌, [], length};
ghost use Rattle.desk.specs.Ends.{AreAllPosts};

use crate::answers::Answers;
use crate::working::{Work, do_all};
use cim_words::NoMemory;
use desk::{Advance, RoomName, RoomSeed};
use room_console::{ClosedRoom, Console, Room, close_room, start_room};
use std::alloc::Global;
use std::marker::Brand;
use std::sync::{Mutex, Wait};
use std::thread::{Threads, for_each_mut};

/// The answers of each console, under a lock of its own.
pub(crate) type AllAnswers = Vec<Mutex<Answers>>;

/// A room of some consoles is opened, each does its work in one of so many threads, and the room is closed.
pub(crate) fn day<V: Advance + Send + Sync, R: Threads + Wait + Sync>(
    rt: &R,
    alloc: Global,
    first: V,
    consoles: u8,
    threads: usize,
    work: Work,
) -> Result<(ClosedRoom<V>, AllAnswers), NoMemory>
    requires consoles { (0 < consoles) × (consoles ≤ 16) }
    requires threads { 0 < threads }
    requires empty { V.log first ≡ [] }
{
    let answers = no_answers(alloc, consoles, work.turns)?;
    let Ok(seed) = RoomSeed::make(alloc, first, consoles) else {
        return Err(NoMemory);
    };
    let closed = named_day::<V, Brand, R>(rt, alloc, seed, threads, work, &answers)?;
    Ok((closed, answers))
}

/// The same of a seed that a name is of.
fn named_day<V: Advance + Send + Sync, N: RoomName + Send + Sync, R: Threads + Wait + Sync>(
    rt: &R,
    alloc: Global,
    seed: RoomSeed<V>,
    threads: usize,
    work: Work,
    answers: &[Mutex<Answers>],
) -> Result<ClosedRoom<V>, NoMemory>
    requires ledger { (seed.ledger ≡ N.name) × (seed.consoles ≡ N.parts) }
    requires board { (seed.board ≡ N.board) × (seed.consoles ≡ N.posts) }
    requires threads { 0 < threads }
{
    let Ok((room, mut consoles)) = start_room::<V, N>(alloc, seed) else {
        return Err(NoMemory);
    };
    all_work(rt, alloc, &room, &mut consoles, threads, work, answers);
    Ok(close_room(room, consoles))
}

/// Each console does its work in one of so many threads.
fn all_work<V: Advance + Send + Sync, N: RoomName + Send + Sync, R: Threads + Wait + Sync>(
    rt: &R,
    alloc: Global,
    room: &Room<V, N>,
    consoles: &mut Vec<Console<V, N>>,
    threads: usize,
    work: Work,
    answers: &[Mutex<Answers>],
)
    requires threads { 0 < threads }
    requires all { AreAllPosts N.posts consoles.old.items }
    ensures { AreAllPosts N.posts consoles.new.items }
{
    for_each_mut(
        rt,
        consoles.as_mut_slice(),
        threads,
        &|index: usize, console: &mut Console<V, N>|
            ensures { console.new.reader.console ≡ console.old.reader.console }
        {
            if let Some(mine) = answers.get(index) {
                do_all(rt, alloc, room, console, work, &mut mine.lock(rt));
            }
        },
    );
}

/// Answers without turns, for so many consoles.
fn no_answers(alloc: Global, consoles: u8, turns: u32) -> Result<AllAnswers, NoMemory> {
    let mut all = Vec::new(alloc);
    for _ in 0..consoles {
        all.push(Mutex::new(Answers::none(alloc, turns)?))?;
    }
    Ok(all)
}
