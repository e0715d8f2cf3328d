//! The beginning of a board.
ghost use Rattle.std.specs.Prelude.{◌≡◌, ℕ, ◌<◌, ◌≤◌, length, IfOk, IfErr, Some, slice_get, replicate};
ghost use Rattle.std.specs.Arc.{arc_value};
ghost use Rattle.board.specs.Ends.{newly_seated};
ghost use Rattle.board.specs.Opened.{opening_seat};

use crate::NoMemory;
use crate::dated::Dated;
use crate::reader::Reader;
use crate::rule::{BoardSeat, SharedBoard};
use crate::writer::Writer;
use std::alloc::Global;

mod laying;

use laying::{claim_all, enroll_all, lay};

/// The ends of a new board with 1 to 16 consoles, whose first version this is. It comes back where there is no memory.
pub fn start<V: Dated + Send + Sync>(
    alloc: Global,
    first: V,
    consoles: u8,
) -> Result<(Writer<V>, Vec<Reader<V>>), (NoMemory, V)>
    requires { (0 < consoles) × (consoles ≤ 16) }
    ensures writer { IfOk result (λ ends. ends.0 ≡ record { board = ends.0.board; consoles = consoles; origin = Some (V.origin first); last = first; told = 0 }) }
    ensures readers { IfOk result (λ ends. (length ends.1.items ≡ consoles) × ((c : ℕ) → c < consoles → slice_get ends.1.items c ≡ Some (newly_seated ends.0.board c (V.log first) (V.origin first) first))) }
    ensures err { IfErr result (λ refused. refused.1 ≡ first) }
{
    match open(alloc, &first, consoles) {
        Ok(opened) => {
            let Opened {
                board,
                seat,
                backs,
                readers,
            } = opened;
            let writer = Writer {
                board,
                seat,
                backs,
                last: first,
                told: 0,
            };
            Ok((writer, readers))
        }
        Err(failed) => Err((failed, first)),
    }
}

/// All of a new board but the first version.
#[derive(Drop)]
struct Opened<V: Dated + Send + Sync> {
    board: SharedBoard<V>,
    seat: BoardSeat<V>,
    backs: Vec<usize>,
    readers: Vec<Reader<V>>,
}

fn open<V: Dated + Send + Sync>(
    alloc: Global,
    first: &V,
    consoles: u8,
) -> Result<Opened<V>, NoMemory>
    requires { (0 < consoles) × (consoles ≤ 16) }
    ensures table { IfOk result (λ opened. (opened.seat.table_id ≡ (arc_value opened.board).shared.table_id) × (opened.seat.table_id.words ≡ consoles)) }
    ensures seat { IfOk result (λ opened. (opened.backs.items ≡ replicate consoles 0) × (opened.seat.me ≡ opening_seat consoles consoles consoles (V.log first.now) (V.origin first.now))) }
    ensures readers { IfOk result (λ opened. (length opened.readers.items ≡ consoles) × ((c : ℕ) → c < consoles → slice_get opened.readers.items c ≡ Some (newly_seated opened.seat.table_id c (V.log first.now) (V.origin first.now) first.now))) }
{
    let backs = Vec::from_elem(alloc, 0, usize::from(consoles))?;
    let (board, mut seat) = lay(alloc, first, consoles)?;
    claim_all(&board.shared, &mut seat, usize::from(consoles), first);
    let readers = enroll_all(alloc, &board, &mut seat, first, usize::from(consoles))?;
    Ok(Opened {
        board,
        seat,
        backs,
        readers,
    })
}
