//! The end that publishes.
ghost use Rattle.std.specs.Prelude.{◌≡◌, ◌≢◌, ◌+◌, ◌^◌, ◌<◌, [], Some};
ghost use Rattle.board.specs.declared.views.Role.TheVariants.{Spent};
ghost use Rattle.board.specs.Lists.{IsPrefix};

use crate::copies::Copies;
use crate::dated::Dated;
use crate::note::Note;
use crate::plays::{Compare, Settle, TakeCopy, TakeNote};
use crate::reader::Reader;
use crate::rule::{BoardSeat, SharedBoard};
use std::marker::Model;

mod sends;

use sends::send_all;

/// The one writer of a board. No reader can hold it up.
#[derive(Drop)]
pub struct Writer<V: Dated + Send + Sync> {
    pub(crate) board: SharedBoard<V>,
    pub(crate) seat: BoardSeat<V>,
    /// For each console the slot, of its three, that the writer has.
    pub(crate) backs: Vec<usize>,
    pub(crate) last: V,
    pub(crate) told: u64,
}

impl<V: Dated + Send + Sync> Model for Writer<V> {
    ghost use Rattle.std.specs.Prelude.{◌≡◌, ◌<◌, ◌≤◌, length};
    ghost use Rattle.std.specs.Arc.{arc_value};
    ghost use Rattle.board.specs.Ends.{WriterState, writer_code};

    ghost Value = { WriterState V V.Origin };

    ghost coded = { writer_code V.code V.Origin.code };

    ghost use Rattle.board.specs.Held.{IsSending};

    ghost view = { λ w. record { board = w.seat.table_id; consoles = w.seat.table_id.words; origin = w.seat.me.0.origin; last = w.last; told = w.told } };

    ghost invariant = { λ w. (w.seat.table_id ≡ (arc_value w.board).shared.table_id) × (0 < w.seat.table_id.words) × (w.seat.table_id.words ≤ 16) × (length w.backs.items ≡ w.seat.table_id.words) × IsSending V.log V.origin w.seat.me w.backs.items w.last };
}

impl<V: Dated + Send + Sync> Writer<V> {
    /// Shows every console this version, before it returns.
    pub fn publish(&mut self, copies: Copies<V>)
        requires consoles { copies.consoles ≡ self.old.consoles }
        requires longer { IsPrefix (V.log self.old.last) (V.log copies.version) }
        requires origin { Some (V.origin copies.version) ≡ self.old.origin }
        requires told { self.old.told < 2 ^ 63 }
        ensures { self.new ≡ record self.old { last = copies.version; told = self.old.told + 1 } }
    {
        let Copies { version, shares } = copies;
        let board = &self.board;
        send_all(
            &board.shared,
            &mut self.seat,
            &mut self.backs,
            &version,
            shares,
        );
        self.last = version;
        self.told += 1;
    }

    /// The version published last, or the first one.
    pub fn last(&self) -> &V
        ensures last { result.now ≡ self.now.last }
        ensures origin { self.now.origin ≡ Some (V.origin result.now) }
    {
        &self.last
    }

    /// How many versions were published.
    pub fn told(&self) -> u64
        ensures { result ≡ self.now.told }
    {
        self.told
    }

    /// What was published, for a reader to learn.
    pub fn note(&mut self) -> Note<V>
        ensures same { self.new ≡ self.old }
        ensures noted { result ≡ record { board = self.old.board; origin = self.old.origin; noted = V.log self.old.last } }
    {
        let board = &self.board;
        let seat = board.shared.split_seat::<TakeNote>(&mut self.seat);
        Note { seat }
    }

    /// Shows that what a reader of the board has seen was published.
    pub fn meet(&mut self, reader: &mut Reader<V>)
        requires { reader.old.board ≡ self.old.board }
        ensures same { (self.new ≡ self.old) × (reader.new ≡ reader.old) }
        ensures seen { IsPrefix reader.old.seen (V.log self.old.last) }
        ensures origin { reader.old.origin ≡ self.old.origin }
    {
        let board = &reader.board;
        let copy = board.shared.split_seat::<TakeCopy>(&mut reader.seat);
        self.absorb(copy);
    }

    /// Takes in a seat, and shows that its list was published.
    pub(crate) fn absorb(&mut self, seat: BoardSeat<V>)
        requires table { (seat.table_id ≡ self.old.board) × (seat.me.1 ≡ []) }
        requires role { seat.me.0.role ≢ Spent }
        ensures same { self.new ≡ self.old }
        ensures seen { IsPrefix seat.me.0.list (V.log self.old.last) }
        ensures origin { seat.me.0.origin ≡ self.old.origin }
    {
        let board = &self.board;
        board.shared.join_seat::<Compare>(&mut self.seat, seat);
        board.shared.load::<Settle>(&mut self.seat, 0);
    }

    /// The version published last, when the board is closed.
    pub(crate) fn into_last(self) -> V
        ensures last { result ≡ self.last }
        ensures origin { self.origin ≡ Some (V.origin result) }
    {
        self.last
    }
}
