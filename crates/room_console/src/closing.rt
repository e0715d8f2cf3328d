//! The close of a room.
ghost use Rattle.std.specs.Prelude.{◌≡◌, All, Some, length};
ghost use Rattle.std.specs.List.{sum_by};
ghost use Rattle.board.specs.Lists.{IsPrefix};
ghost use Rattle.desk.specs.Ends.{AreAllPosts, number_of};
ghost use Rattle.desk.specs.Legal.{IsLegal};
ghost use Rattle.desk.specs.Receipts.{AreNumbered, receipts_in};

use crate::console::Console;
use crate::room::{Locked, Room};
use crate::seats::gather;
use desk::{Advance, Closed, RoomName};

/// A room that has been closed.
#[derive(Drop)]
pub struct ClosedRoom<V: Advance + Send + Sync> {
    /// The version of the whole log.
    pub last: V,
    /// How many entries were made.
    pub made: u64,
}

/// Closes a room with all its consoles: the log is legal, and its entries are the consoles' receipts, each once. No memory is taken.
pub fn close_room<V: Advance + Send + Sync, N: RoomName>(
    room: Room<V, N>,
    consoles: Vec<Console<V, N>>,
) -> ClosedRoom<V>
    requires room { N.posts ≡ N.parts }
    requires all { AreAllPosts N.posts consoles.items }
    ensures made { result.made ≡ length (V.log result.last) }
    ensures legal { IsLegal (V.judges (V.origin result.last)) (V.log result.last) }
    ensures seen { All (λ console. IsPrefix console.reader.seen (V.log result.last)) consoles.items }
    ensures began { All (λ console. console.reader.origin ≡ Some (V.origin result.last)) consoles.items }
    ensures receipts { All (λ console. console.receipts ≡ receipts_in (number_of console) (V.log result.last)) consoles.items }
    ensures serials { All (λ console. AreNumbered console.receipts) consoles.items }
    ensures all { sum_by (λ console. length console.receipts) consoles.items ≡ result.made }
{
    let Locked { desk, returned } = room.locked.into_inner();
    let posts = gather(consoles, returned);
    let Closed { last } = desk.close(posts);
    let made = u64::from(last.number());
    ClosedRoom { last, made }
}
