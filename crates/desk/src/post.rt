//! The post of one console at the desk.
ghost use Rattle.std.specs.Prelude.{◌≡◌, ◌+◌, ◌-◌, ◌^◌, ◌<◌, ◌≤◌, ◌++◌, ◌∷◌, [], List, length, Some, OnOk, ℕ};
ghost use Rattle.board.specs.Lists.{IsPrefix};
ghost use Rattle.desk.specs.Consoles.{IsConsole};
ghost use Rattle.desk.specs.Ends.{number_of};
ghost use Rattle.desk.specs.Receipts.{AreSomeOf, receipts_in};

use crate::advance::Advance;
use crate::name::RoomName;
use board::{NoMemory, Reader};
use room_words::Receipt;
use std::alloc::Global;
use std::marker::Model;
use std::sync::ledger::Share;

/// What one console has of a room: its view of the board, the receipts that it was given, and its share of the ledger.
#[derive(Drop)]
pub struct Post<V: Advance + Send + Sync, N: RoomName> {
    pub(crate) reader: Reader<V>,
    pub(crate) receipts: Vec<Receipt>,
    pub(crate) share: Share<N>,
    pub(crate) console: u8,
}

impl<V: Advance + Send + Sync, N: RoomName> Model for Post<V, N> {
    ghost use Rattle.std.specs.Prelude.{◌-◌, vec_len, vec_capacity};
    ghost use Rattle.desk.specs.Ends.{PostState};
    ghost use Rattle.desk.specs.Held.{HeldByPost};

    ghost Value = { PostState V V.Origin };

    ghost view = { λ p. record { reader = p.reader; receipts = p.receipts.items; room = vec_capacity p.receipts - vec_len p.receipts } };

    ghost invariant = { λ p. HeldByPost N.board p.reader p.receipts.items p.console p.share.parts p.share.amount };
}

impl<V: Advance + Send + Sync, N: RoomName> Post<V, N> {
    ghost use Rattle.std.specs.Borrow.{sem};
    ghost use Rattle.std.specs.Prelude.{⊤};
    ghost use mathlib.Core.Option.{none};
    ghost use denote.Follow.{follows_so};
    ghost use Rattle.desk.specs.Follows.{PostLooked};
    ghost use Rattle.desk.specs.contracts.post.Post.{the_row};

    /// The post of a console that has made nothing.
    pub(crate) fn new(alloc: Global, console: u8, reader: Reader<V>, share: Share<N>) -> Post<V, N>
        requires board { reader.board ≡ N.board }
        requires console { console ≡ reader.console + 1 }
        requires range { IsConsole console }
        requires share { (share.parts ≡ 1) × (share.amount ≡ 0) }
        ensures { (result.reader ≡ reader) × (result.receipts ≡ []) }
    {
        Post {
            reader,
            receipts: Vec::new(alloc),
            share,
            console,
        }
    }

    /// The number of its console, from 1.
    pub fn console(&self) -> u8
        ensures number { result ≡ number_of self.now }
        ensures range { IsConsole result }
    {
        self.console
    }

    /// How many receipts it has.
    pub fn made(&self) -> u32
        ensures { result ≡ length self.now.receipts }
    {
        self.receipts.len() as u32
    }

    /// Its receipts, in their order. Each names an entry that it has seen.
    pub fn receipts(&self) -> &[Receipt]
        ensures receipts { result.now ≡ self.now.receipts }
        ensures named { AreSomeOf self.now.receipts (receipts_in (number_of self.now) self.now.reader.seen) }
    {
        self.receipts.as_slice()
    }

    /// How often it has looked.
    pub fn looks(&self) -> u64
        ensures { result ≡ length self.now.reader.founds }
    {
        self.reader.looks()
    }

    /// Makes room for so many more receipts.
    pub fn reserve(&mut self, more: u32) -> Result<(), NoMemory>
        ensures same { self.new ≡ record self.old { room = self.new.room } }
        ensures no_less { self.old.room ≤ self.new.room }
        ensures ok { OnOk result (more ≤ self.new.room) }
    {
        self.receipts.reserve(more as usize)
    }

    /// Looks at what is newest. It waits for nobody.
    pub fn look(&mut self) -> &V
        requires { length self.old.reader.founds < 2 ^ 63 }
        ensures* after { sem 𝓛 (follows_so (the_row V.row N.row V.Origin.row (record { judges = V.judges; ticks = V.ticks }) V.Dated (record { board = N.board; posts = N.posts }) N.Ledger) (the_row V.row N.row V.Origin.row (record { judges = V.judges; ticks = V.ticks }) V.Dated (record { board = N.board; posts = N.posts }) N.Ledger) self.entry.ghost_name none (λ _ _. ⊤) (λ after. PostLooked V.log V.origin self.old after result.now)) }
    {
        self.advance();
        self.shown()
    }

    fn advance(&mut self)
        requires { length self.old.reader.founds < 2 ^ 63 }
        ensures found { (n : ℕ) × (self.new.reader.founds ≡ self.old.reader.founds ++ n ∷ []) × (length self.old.reader.seen ≤ n) × (n ≤ length self.new.reader.seen) }
        ensures seen { IsPrefix self.old.reader.seen self.new.reader.seen }
        ensures shown { (v : V) × (self.new.reader.shown ≡ Some v) × (V.log v ≡ self.new.reader.seen) }
        ensures same { (self.new.reader.board ≡ self.old.reader.board) × (self.new.reader.console ≡ self.old.reader.console) × (self.new.reader.origin ≡ self.old.reader.origin) }
        ensures kept { (self.new.receipts ≡ self.old.receipts) × (self.new.room ≡ self.old.room) }
    {
        self.reader.look();
    }

    /// The version of the last look, or the first one.
    pub fn shown(&self) -> &V
        ensures shown { self.now.reader.shown ≡ Some result.now }
        ensures seen { IsPrefix (V.log result.now) self.now.reader.seen }
        ensures origin { self.now.reader.origin ≡ Some (V.origin result.now) }
    {
        self.reader.shown()
    }

    /// What it held, when the room is closed.
    pub(crate) fn into_parts(self) -> (Reader<V>, Share<N>)
        ensures reader { (result.0 ≡ self.reader) × (self.reader.board ≡ N.board) }
        ensures share { (result.1.parts ≡ 1) × (result.1.amount ≡ length self.receipts) }
        ensures named { AreSomeOf self.receipts (receipts_in (number_of self) self.reader.seen) }
    {
        let Post {
            reader,
            receipts: _,
            share,
            console: _,
        } = self;
        (reader, share)
    }
}
