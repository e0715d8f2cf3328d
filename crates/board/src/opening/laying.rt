//! How the table is made, and the seats at it.
ghost use Rattle.std.specs.Prelude.{◌≡◌, ℕ, ◌+◌, ◌<◌, ◌≤◌, length, IfOk, Some, slice_get};
ghost use Rattle.std.specs.Arc.{arc_value};
ghost use Rattle.board.specs.Ends.{newly_seated};
ghost use Rattle.board.specs.Opened.{opening_seat};

use crate::NoMemory;
use crate::dated::Dated;
use crate::plays::{Arm, Claim, Enroll};
use crate::reader::Reader;
use crate::reader::front::Front;
use crate::rule::{Board, BoardSeat, Opening, SharedBoard, SharedPart};
use crate::shares::shares;
use crate::slots::lay_slots;
use crate::word::stale_word;
use atomic_table::Table;
use std::alloc::Global;
use std::snapshot::Snapshot;
use std::sync::Arc;

/// The table, with the writer's seat.
pub(crate) fn lay<V: Dated + Send + Sync>(
    alloc: Global,
    first: &V,
    consoles: u8,
) -> Result<(SharedBoard<V>, BoardSeat<V>), NoMemory>
    requires { consoles ≤ 16 }
    ensures table { IfOk result (λ made. (made.1.table_id ≡ (arc_value made.0).shared.table_id) × (made.1.table_id.words ≡ consoles)) }
    ensures seat { IfOk result (λ made. made.1.me ≡ opening_seat consoles 0 0 (V.log first.now) (V.origin first.now)) }
{
    let words = Vec::from_elem(alloc, stale_word(first.number(), 2), usize::from(consoles))?;
    let slots = lay_slots(alloc, first, consoles)?;
    let about = Opening {
        first: Snapshot::of(first),
        consoles,
    };
    let made: Result<(Board<V>, BoardSeat<V>), _> = Table::new(
        alloc,
        words.as_slice(),
        slots,
        &about,
    );
    let Ok((table, seat)) = made else {
        return Err(NoMemory);
    };
    Ok((Arc::new(alloc, table)?, seat))
}

/// The writer takes its slot of each console.
pub(crate) fn claim_all<V: Dated + Send + Sync>(
    shared: &SharedPart<V>,
    seat: &mut BoardSeat<V>,
    consoles: usize,
    first: &V,
)
    requires table { (seat.old.table_id ≡ shared.now.table_id) × (consoles ≡ shared.now.table_id.words) }
    requires seat { seat.old.me ≡ opening_seat consoles 0 0 (V.log first.now) (V.origin first.now) }
    ensures table { seat.new.table_id ≡ seat.old.table_id }
    ensures seat { seat.new.me ≡ opening_seat consoles consoles 0 (V.log first.now) (V.origin first.now) }
{
    for console in 0..consoles {
        shared.load::<Claim>(seat, console);
        seat.turn();
    }
}

/// The reader of the next console, with a copy of the first version.
fn enroll<V: Dated + Send + Sync>(
    board: SharedBoard<V>,
    from: &mut BoardSeat<V>,
    consoles: usize,
    console: usize,
    first: V,
) -> Reader<V>
    requires table { (from.old.table_id ≡ (arc_value board).shared.table_id) × (consoles ≡ from.old.table_id.words) × (console < consoles) × (consoles ≤ 16) }
    requires seat { from.old.me ≡ opening_seat consoles consoles console (V.log first) (V.origin first) }
    ensures table { from.new.table_id ≡ from.old.table_id }
    ensures seat { from.new.me ≡ opening_seat consoles consoles (console + 1) (V.log first) (V.origin first) }
    ensures reader { result ≡ newly_seated from.old.table_id console (V.log first) (V.origin first) first }
{
    let number = first.number();
    let mut seat = board.shared.split_seat::<Enroll>(from);
    board.shared.load::<Arm>(&mut seat, console);
    Reader {
        board,
        seat,
        console,
        looks: 0,
        front: Some(Front {
            slot: 1,
            number,
            version: first,
        }),
    }
}

/// A reader for each console.
pub(crate) fn enroll_all<V: Dated + Send + Sync>(
    alloc: Global,
    board: &SharedBoard<V>,
    from: &mut BoardSeat<V>,
    first: &V,
    consoles: usize,
) -> Result<Vec<Reader<V>>, NoMemory>
    requires table { (from.old.table_id ≡ (arc_value board.now).shared.table_id) × (consoles ≡ from.old.table_id.words) × (consoles ≤ 16) }
    requires seat { from.old.me ≡ opening_seat consoles consoles 0 (V.log first.now) (V.origin first.now) }
    ensures table { from.new.table_id ≡ from.old.table_id }
    ensures seat { IfOk result (λ _. from.new.me ≡ opening_seat consoles consoles consoles (V.log first.now) (V.origin first.now)) }
    ensures readers { IfOk result (λ readers. (length readers.items ≡ consoles) × ((c : ℕ) → c < consoles → slice_get readers.items c ≡ Some (newly_seated from.old.table_id c (V.log first.now) (V.origin first.now) first.now))) }
{
    let mut readers = Vec::new(alloc);
    for console in 0..consoles {
        let share = first.share()?;
        let reader = enroll(Arc::try_clone(board)?, from, consoles, console, share);
        readers.push(reader)?;
    }
    Ok(readers)
}
