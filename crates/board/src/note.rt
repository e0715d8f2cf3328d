//! What the writer tells a reader.
use crate::dated::Dated;
use crate::rule::BoardSeat;
use std::marker::Model;

/// What a writer had published when it made this.
#[derive(Drop)]
pub struct Note<V: Dated + Send + Sync> {
    pub(crate) seat: BoardSeat<V>,
}

impl<V: Dated + Send + Sync> Model for Note<V> {
    ghost use Rattle.board.specs.Ends.{NoteState, note_code};

    ghost Value = { NoteState V.Item V.Origin };

    ghost coded = { note_code V.Item.code V.Origin.code };

    ghost use Rattle.board.specs.Held.{IsNote};

    ghost view = { λ n. record { board = n.seat.table_id; origin = n.seat.me.0.origin; noted = n.seat.me.0.list } };

    ghost invariant = { λ n. IsNote V.log V.origin n.seat.me };
}
