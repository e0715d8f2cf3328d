//! A room that is open.
ghost use Rattle.std.specs.Prelude.{ℕ, ◌≡◌, ◌<◌, [], IfOk, IfErr, IfSome, slice_get};
ghost use Rattle.board.specs.Ends.{newly_seated};
ghost use Rattle.desk.specs.Ends.{AreAllPosts};

use crate::console::Console;
use crate::seats::seat_all;
use desk::{Advance, Closed, Desk, NoMemory, Post, RoomName, RoomSeed};
use std::alloc::Global;
use std::marker::Model;
use std::sync::Mutex;

/// A room: the desk with a lock round it, for all consoles in their threads.
#[derive(Drop)]
pub struct Room<V: Advance + Send + Sync, N: RoomName> {
    pub(crate) locked: Mutex<Locked<V, N>>,
}

/// What the lock of a room is round: the desk, and what the close needs.
#[derive(Drop)]
pub(crate) struct Locked<V: Advance + Send + Sync, N: RoomName> {
    pub(crate) desk: Desk<V, N>,
    /// An empty list with room for the posts of all consoles at the close.
    pub(crate) returned: Vec<Post<V, N>>,
}

impl<V: Advance + Send + Sync, N: RoomName> Model for Locked<V, N> {
    ghost use Rattle.std.specs.Prelude.{◌≡◌, ◌≤◌, [], vec_capacity};
    ghost use Rattle.desk.specs.Ends.{DeskState};

    ghost Value = { DeskState V };

    ghost view = { λ l. l.desk };

    ghost invariant = { λ l. (l.returned.items ≡ []) × (N.posts ≤ vec_capacity l.returned) };
}

/// Opens a seed: the room, and its consoles, the first one first. The first version comes back where there is no memory.
pub fn start_room<V: Advance + Send + Sync, N: RoomName>(
    alloc: Global,
    seed: RoomSeed<V>,
) -> Result<(Room<V, N>, Vec<Console<V, N>>), (NoMemory, V)>
    requires ledger { (seed.ledger ≡ N.name) × (seed.consoles ≡ N.parts) }
    requires board { (seed.board ≡ N.board) × (seed.consoles ≡ N.posts) }
    ensures empty { V.log seed.first ≡ [] }
    ensures consoles { IfOk result (λ room. AreAllPosts seed.consoles room.1.items) }
    ensures fresh { IfOk result (λ room. (index : ℕ) → index < seed.consoles → IfSome (slice_get room.1.items index) (λ console.
        (console.reader ≡ newly_seated N.board index [] (V.origin seed.first) seed.first) × (console.receipts ≡ []))) }
    ensures err { IfErr result (λ refused. refused.1 ≡ seed.first) }
{
    let (desk, posts) = Desk::<V, N>::start(alloc, seed)?;
    let Ok(consoles) = Vec::with_capacity(alloc, posts.len()) else {
        let Closed { last } = desk.close(posts);
        return Err((NoMemory, last));
    };
    let (returned, consoles) = seat_all(posts, consoles);
    let room = Room {
        locked: Mutex::new(Locked { desk, returned }),
    };
    Ok((room, consoles))
}
