//! The end that looks.
use crate::dated::Dated;
use crate::note::Note;
use crate::plays::{Learn, Leave, Look, Settle};
use crate::rule::{BoardSeat, SharedBoard};
use crate::word::is_fresh;
use std::marker::Model;

pub(crate) mod front;

use front::{Front, collect};

/// One reader of a board. It never waits, and what it sees never goes back.
#[derive(Drop)]
pub struct Reader<V: Dated + Send + Sync> {
    pub(crate) board: SharedBoard<V>,
    pub(crate) seat: BoardSeat<V>,
    pub(crate) console: usize,
    pub(crate) looks: u64,
    pub(crate) front: Option<Front<V>>,
}

impl<V: Dated + Send + Sync> Model for Reader<V> {
    ghost use Rattle.std.specs.Prelude.{◌≡◌, ◌<◌, ◌≤◌, length, Some};
    ghost use Rattle.std.specs.Arc.{arc_value};
    ghost use Rattle.board.specs.Ends.{ReaderState, reader_code};

    ghost Value = { ReaderState V V.Item V.Origin };

    ghost coded = { reader_code V.code V.Item.code V.Origin.code };

    ghost use Rattle.board.specs.Views.{founds_of};
    ghost use Rattle.board.specs.Fronts.{version_of, IsReader};

    ghost view = { λ r. record { board = r.seat.table_id; console = r.console; origin = r.seat.me.0.origin; seen = r.seat.me.0.list; founds = founds_of r.seat.me.0.role; shown = version_of r.front } };

    ghost invariant = { λ r. (r.seat.table_id ≡ (arc_value r.board).shared.table_id) × (r.console < r.seat.table_id.words) × (r.seat.table_id.words ≤ 16) × (r.looks ≡ length (founds_of r.seat.me.0.role)) × IsReader V.log V.origin r.seat.me r.console r.front };
}

impl<V: Dated + Send + Sync> Reader<V> {
    ghost use Rattle.board.specs.declared.views.Role.TheVariants.{Spent};
    ghost use Rattle.std.specs.Prelude.{◌≡◌, ◌≢◌, ℕ, ◌+◌, ◌^◌, ◌<◌, ◌≤◌, [], ◌∷◌, ◌++◌, length, Some, ⊤};
    ghost use Rattle.std.specs.Borrow.{sem};
    ghost use mathlib.Core.Option.{none};
    ghost use denote.Follow.{follows_so};
    ghost use Rattle.board.specs.Lists.{IsPrefix, longer};
    ghost use Rattle.board.specs.Looked.{HasLooked};
    ghost use Rattle.board.specs.contracts.reader.Reader.{the_row};

    /// Looks at what is newest. One load, and one swap where something came.
    pub fn look(&mut self) -> &V
        requires { length self.old.founds < 2 ^ 63 }
        ensures* after { sem 𝓛 (follows_so (the_row V.row V.Item.row V.Origin.row V.Dated) (the_row V.row V.Item.row V.Origin.row V.Dated) self.entry.ghost_name none (λ _ _. ⊤) (λ after. HasLooked V.log V.origin self.old after result.now)) }
    {
        self.advance();
        self.shown()
    }

    fn advance(&mut self)
        requires { length self.old.founds < 2 ^ 63 }
        ensures found { (n : ℕ) × (self.new.founds ≡ self.old.founds ++ n ∷ []) × (length self.old.seen ≤ n) × (n ≤ length self.new.seen) }
        ensures seen { IsPrefix self.old.seen self.new.seen }
        ensures shown { (v : V) × (self.new.shown ≡ Some v) × (V.log v ≡ self.new.seen) }
        ensures same { (self.new.board ≡ self.old.board) × (self.new.console ≡ self.old.console) × (self.new.origin ≡ self.old.origin) }
    {
        let board = &self.board;
        let word = board.shared.load::<Look>(&mut self.seat, self.console);
        self.looks += 1;
        if !is_fresh(word) {
            return;
        }
        let Some(front) = self.front.take() else {
            unreachable!()
        };
        self.front = Some(collect(&board.shared, &mut self.seat, self.console, front));
    }

    /// The version of the last look, or the first one.
    pub fn shown(&self) -> &V
        ensures shown { self.now.shown ≡ Some result.now }
        ensures seen { IsPrefix (V.log result.now) self.now.seen }
        ensures origin { self.now.origin ≡ Some (V.origin result.now) }
    {
        match &self.front {
            Some(front) => &front.version,
            None => unreachable!(),
        }
    }

    /// How often it has looked.
    pub fn looks(&self) -> u64
        ensures { result ≡ length self.now.founds }
    {
        self.looks
    }

    /// Takes in what the writer told. The next look has at least that.
    pub fn learn(&mut self, note: Note<V>)
        requires { note.board ≡ self.old.board }
        ensures seen { self.new ≡ record self.old { seen = longer self.old.seen note.noted } }
        ensures before { IsPrefix self.old.seen self.new.seen }
        ensures noted { IsPrefix note.noted self.new.seen }
        ensures origin { note.origin ≡ self.old.origin }
    {
        let Note { seat } = note;
        let board = &self.board;
        board.shared.join_seat::<Learn>(&mut self.seat, seat);
        board.shared.load::<Settle>(&mut self.seat, self.console);
    }

    /// Gives its slot back, and up its seat.
    pub(crate) fn leave(self) -> BoardSeat<V>
        ensures seat { (result.table_id ≡ self.board) × (result.me.1 ≡ []) × (result.me.0.role ≢ Spent) }
        ensures seen { (result.me.0.list ≡ self.seen) × (result.me.0.origin ≡ self.origin) }
    {
        let Reader {
            board,
            mut seat,
            console,
            looks: _,
            front,
        } = self;
        drop(front);
        board.shared.load::<Leave>(&mut seat, console);
        seat
    }
}
