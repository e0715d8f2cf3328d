//! What a room is made of before it has a name.
ghost use Rattle.std.specs.Prelude.{◌≡◌, ◌<◌, ◌≤◌, [], IfOk, IfErr};

use crate::advance::Advance;
use board::{NoMemory, Reader, Writer, start};
use std::alloc::Global;
use std::marker::Model;
use std::sync::ledger::Blank;

/// A room that nobody has opened: a ledger with one part for each console, and a board with its ends.
#[derive(Drop)]
pub struct RoomSeed<V: Advance + Send + Sync> {
    pub(crate) blank: Blank,
    pub(crate) writer: Writer<V>,
    pub(crate) readers: Vec<Reader<V>>,
    pub(crate) consoles: u8,
}

impl<V: Advance + Send + Sync> Model for RoomSeed<V> {
    ghost use Rattle.std.specs.Prelude.{◌≡◌};
    ghost use Rattle.desk.specs.Ends.{SeedState};
    ghost use Rattle.desk.specs.Held.{HeldBySeed};

    ghost Value = { SeedState V };

    ghost view = { λ s. record { first = s.writer.last; consoles = s.consoles; board = s.writer.board; ledger = s.blank.name } };

    ghost invariant = { λ s. HeldBySeed V.origin V.log s.writer s.readers.items s.consoles s.blank.parts };
}

impl<V: Advance + Send + Sync> RoomSeed<V> {
    /// The seed of a room with 1 to 16 consoles, whose first version this is. It comes back where there is no memory.
    pub fn make(alloc: Global, first: V, consoles: u8) -> Result<RoomSeed<V>, (NoMemory, V)>
        requires consoles { (0 < consoles) × (consoles ≤ 16) }
        requires empty { V.log first ≡ [] }
        ensures first { IfOk result (λ seed. seed.first ≡ first) }
        ensures consoles { IfOk result (λ seed. seed.consoles ≡ consoles) }
        ensures err { IfErr result (λ refused. refused.1 ≡ first) }
    {
        let (writer, readers) = start(alloc, first, consoles)?;
        Ok(RoomSeed {
            blank: Blank::new(u64::from(consoles)),
            writer,
            readers,
            consoles,
        })
    }
}
