//! One console of a room.
ghost use Rattle.std.specs.Prelude.{◌≡◌, ◌+◌, ◌^◌, ◌<◌, ◌≤◌, [], length, Some, Err, IfOk, IfSome};
ghost use Rattle.board.specs.Lists.{IsPrefix};
ghost use Rattle.desk.specs.Consoles.{IsConsole};
ghost use Rattle.desk.specs.Ends.{number_of};
ghost use Rattle.room_console.specs.Submits.{LooksOnce, IsEntered, IsRefused};
ghost use Rattle.room_words.specs.declared.refused.Refused.{Refused};
ghost use Rattle.room_words.specs.declared.refused.Denied.TheVariants as denied;

use crate::entering::{enter, seen_after};
use crate::room::Room;
use desk::{Advance, Post, RoomName};
use room_words::{Denied, Entry, Event, Receipt};
use shared_parts::Share;
use std::alloc::Global;
use std::marker::Model;
use std::sync::Wait;
use std::sync::ledger::Ledger;
use step_count::Steps;

/// A console of a room, which one thread has: it submits, looks, and knows its receipts. Contracts see it as its post.
#[derive(Drop)]
pub struct Console<V: Advance + Send + Sync, N: RoomName> {
    pub(crate) post: Post<V, N>,
    /// How many entries it has seen.
    pub(crate) seen: u32,
}

impl<V: Advance + Send + Sync, N: RoomName> Model for Console<V, N> {
    ghost use Rattle.std.specs.Prelude.{◌≡◌, ◌≤◌, length};
    ghost use Rattle.desk.specs.Consoles.{IsConsole};
    ghost use Rattle.desk.specs.Ends.{PostState, number_of};

    ghost Value = { PostState V V.Origin };

    ghost view = { λ c. c.post };

    ghost invariant = { λ c. IsConsole (number_of c.post) × (c.seen ≡ length c.post.reader.seen) × (length c.post.receipts ≤ c.seen) };
}

impl<V: Advance + Send + Sync, N: RoomName> Console<V, N> {
    ghost use Rattle.std.specs.Borrow.{sem};
    ghost use Rattle.std.specs.Prelude.{⊤};
    ghost use mathlib.Core.Option.{none};
    ghost use denote.Follow.{follows_so};
    ghost use Rattle.desk.specs.Follows.{PostLooked};
    ghost use Rattle.room_console.specs.contracts.console.Console.{the_row};

    /// The console of a post that has seen nothing yet.
    pub(crate) fn new(post: Post<V, N>) -> Console<V, N>
        requires console { IsConsole (number_of post) }
        requires fresh { (post.reader.seen ≡ []) × (post.receipts ≡ []) }
        ensures { result ≡ post }
    {
        Console { post, seen: 0 }
    }

    /// Submits an event: looks once, then takes the desk's lock, has the event judged on the newest version, and enters it or is told all that was entered. Nothing is refused for want of memory once the event is accepted.
    pub fn submit<R: Wait, L: Ledger>(
        &mut self,
        rt: &R,
        alloc: Global,
        room: &Room<V, N>,
        event: &Event,
        steps: &mut Steps<L>,
    ) -> Result<Receipt, Denied>
        requires { length self.old.reader.founds < 2 ^ 63 }
        ensures looks { LooksOnce self.old self.new }
        ensures entered { IfOk result (λ receipt. IsEntered V.judges self.old self.new event.now receipt) }
        ensures refused { (why : Refused) → result ≡ Err (denied.Refused why) → IsRefused V.judges self.old self.new event.now why }
        ensures memory { result ≡ Err denied.NoMemory → self.new.receipts ≡ self.old.receipts }
        ensures bound { IfSome (V.ticks event.now) (λ most. steps.new ≤ steps.old + most) }
    {
        self.advance();
        self.post.reserve(1)?;
        let mut entry = Entry {
            console: self.post.console(),
            serial: 0,
            event: event.share()?,
        };
        let answer = enter(
            alloc,
            &mut room.locked.lock(rt).desk,
            &mut self.post,
            &mut entry,
            steps,
        );
        self.seen = seen_after(self.seen, answer);
        answer
    }

    /// Looks at what is newest. It waits for nobody, and takes no lock and no memory.
    pub fn look(&mut self) -> &V
        requires { length self.old.reader.founds < 2 ^ 63 }
        ensures* after { sem 𝓛 (follows_so (the_row V.row N.row V.Origin.row (record { judges = V.judges; ticks = V.ticks }) V.Dated (record { board = N.board; posts = N.posts }) N.Ledger) (the_row V.row N.row V.Origin.row (record { judges = V.judges; ticks = V.ticks }) V.Dated (record { board = N.board; posts = N.posts }) N.Ledger) self.entry.ghost_name none (λ _ _. ⊤) (λ after. PostLooked V.log V.origin self.old after result.now)) }
    {
        self.advance();
        self.shown()
    }

    fn advance(&mut self)
        requires { length self.old.reader.founds < 2 ^ 63 }
        ensures looks { LooksOnce self.old self.new }
        ensures shown { (v : V) × (self.new.reader.shown ≡ Some v) × (V.log v ≡ self.new.reader.seen) }
        ensures kept { (self.new.receipts ≡ self.old.receipts) × (self.new.room ≡ self.old.room) }
    {
        self.seen = self.post.look().number();
    }

    /// The version of the last look, or the first one.
    pub fn shown(&self) -> &V
        ensures shown { self.now.reader.shown ≡ Some result.now }
        ensures seen { IsPrefix (V.log result.now) self.now.reader.seen }
        ensures origin { self.now.reader.origin ≡ Some (V.origin result.now) }
    {
        self.post.shown()
    }

    /// How many entries it has seen.
    pub fn seen(&self) -> u32
        ensures { result ≡ length self.now.reader.seen }
    {
        self.seen
    }

    /// How many receipts it has.
    pub fn made(&self) -> u32
        ensures { result ≡ length self.now.receipts }
    {
        // It has seen an entry for each receipt, so their number fits.
        let _seen = self.seen;
        self.post.receipts().len() as u32
    }

    /// How often it has looked; each submit looks once.
    pub fn looks(&self) -> u64
        ensures { result ≡ length self.now.reader.founds }
    {
        self.post.looks()
    }

    /// Its number, from 1.
    pub fn console(&self) -> u8
        ensures number { result ≡ number_of self.now }
        ensures console { IsConsole result }
    {
        self.post.console()
    }

    /// Its post, when the room is closed.
    pub(crate) fn into_post(self) -> Post<V, N>
        ensures { result ≡ self }
    {
        let Console { post, seen: _ } = self;
        post
    }
}
