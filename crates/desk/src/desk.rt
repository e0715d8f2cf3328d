//! The desk of a room.
ghost use Rattle.std.specs.Prelude.{ℕ, ◌≡◌, ◌+◌, ◌-◌, ◌<◌, ◌≤◌, ◌++◌, ◌∷◌, [], List, All, length, Err, Some, None, IfOk, IfErr, IfSome, slice_get};
ghost use Rattle.std.specs.List.{sum_by};
ghost use Rattle.board.specs.Ends.{newly_seated};
ghost use Rattle.board.specs.Lists.{IsPrefix};
ghost use Rattle.desk.specs.Consoles.{IsConsole, most_consoles, next_serial};
ghost use Rattle.desk.specs.Ends.{AreAllPosts, number_of};
ghost use Rattle.desk.specs.Follows.{Follows};
ghost use Rattle.desk.specs.Legal.{IsLegal};
ghost use Rattle.desk.specs.Receipts.{AreNumbered, receipt_of, receipts_in};
ghost use Rattle.room_words.specs.declared.refused.Refused.{Refused};
ghost use Rattle.room_words.specs.declared.refused.Denied.TheVariants as denied;

use crate::advance::{Advance, legal_histories_go_on};
use crate::name::RoomName;
use crate::post::Post;
use crate::posts::{gather, hand_out};
use crate::prepared::{Prepared, make_copies};
use crate::seed::RoomSeed;
use board::{Closed, NoMemory, Reader, Writer, close};
use room_words::{Denied, Entry, Receipt};
use std::alloc::Global;
use std::marker::Model;
use std::sync::ledger::{Book, Ledger, Share};
use step_count::Steps;

/// The desk of a room: the one place where entries are added. It has the current version, and the book of all receipts.
#[derive(Drop)]
pub struct Desk<V: Advance + Send + Sync, N: RoomName> {
    pub(crate) writer: Writer<V>,
    pub(crate) book: Book<N>,
    /// A share without parts, to which those of the posts come at the close.
    pub(crate) gathered: Share<N>,
    /// An empty list with room for the readers of all posts at the close.
    pub(crate) returned: Vec<Reader<V>>,
    pub(crate) consoles: u8,
}

impl<V: Advance + Send + Sync, N: RoomName> Model for Desk<V, N> {
    ghost use Rattle.std.specs.Prelude.{◌≡◌, ◌≤◌, [], vec_capacity};
    ghost use Rattle.desk.specs.Ends.{DeskState};
    ghost use Rattle.desk.specs.Held.{HeldByDesk};

    ghost Value = { DeskState V };

    ghost view = { λ d. record { current = d.writer.last; told = d.writer.told } };

    ghost invariant = { λ d. HeldByDesk V.judges V.origin V.log N.board N.posts d.writer d.book.total × (d.consoles ≡ N.posts)
        × (d.gathered.parts ≡ 0) × (d.gathered.amount ≡ 0) × (d.returned.items ≡ []) × (N.posts ≤ vec_capacity d.returned) };
}

impl<V: Advance + Send + Sync, N: RoomName> Desk<V, N> {
    /// Opens a seed: the desk, and a post for each console, the first console's first. The first version comes back where there is no memory.
    pub fn start(
        alloc: Global,
        seed: RoomSeed<V>,
    ) -> Result<(Desk<V, N>, Vec<Post<V, N>>), (NoMemory, V)>
        requires ledger { (seed.ledger ≡ N.name) × (seed.consoles ≡ N.parts) }
        requires board { (seed.board ≡ N.board) × (seed.consoles ≡ N.posts) }
        ensures desk { IfOk result (λ room. room.0 ≡ record { current = seed.first; told = 0 }) }
        ensures empty { V.log seed.first ≡ [] }
        ensures consoles { (0 < seed.consoles) × (seed.consoles ≤ most_consoles) }
        ensures posts { IfOk result (λ room. AreAllPosts seed.consoles room.1.items) }
        ensures fresh { IfOk result (λ room. (index : ℕ) → index < seed.consoles → IfSome (slice_get room.1.items index) (λ post.
            (post.reader ≡ newly_seated N.board index [] (V.origin seed.first) seed.first) × (post.receipts ≡ []))) }
        ensures err { IfErr result (λ refused. refused.1 ≡ seed.first) }
    {
        legal_histories_go_on::<V>();
        let RoomSeed {
            blank,
            writer,
            readers,
            consoles,
        } = seed;
        let Ok(posts) = Vec::with_capacity(alloc, usize::from(consoles)) else {
            let Closed { last } = close(writer, readers);
            return Err((NoMemory, last));
        };
        let (book, all) = blank.open::<N>();
        let (posts, returned, gathered) = hand_out(alloc, posts, readers, all);
        let desk = Desk {
            writer,
            book,
            gathered,
            returned,
            consoles,
        };
        Ok((desk, posts))
    }

    /// The current version, with what holds of every desk.
    pub fn current(&self) -> &V
        ensures current { result.now ≡ self.now.current }
        ensures legal { IsLegal (V.judges (V.origin self.now.current)) (V.log self.now.current) }
        ensures told { self.now.told ≤ length (V.log self.now.current) }
    {
        self.writer.last()
    }

    /// Makes everything ready for the entry to be added to the current version, or says why it may not be.
    pub fn prepare<L: Ledger>(
        &self,
        alloc: Global,
        entry: &Entry,
        steps: &mut Steps<L>,
    ) -> Result<Prepared<V>, Denied>
        requires console { IsConsole entry.now.console }
        requires serial { entry.now.serial ≡ next_serial entry.now.console (V.log self.now.current) }
        ensures entry { IfOk result (λ prepared. prepared.entry ≡ entry.now) }
        ensures consoles { IfOk result (λ prepared. prepared.consoles ≡ N.posts) }
        ensures follows { IfOk result (λ prepared. Follows V.judges V.origin V.log self.now.current prepared) }
        ensures refused { (why : Refused) → result ≡ Err (denied.Refused why)
            → (why.at ≡ length (V.log self.now.current)) × V.judges (V.origin self.now.current) (V.log self.now.current) entry.now.event (Some why.why) }
        ensures bound { IfSome (V.ticks entry.now.event) (λ most. steps.new ≤ steps.old + most) }
    {
        match self.writer.last().advance(alloc, entry, steps) {
            Ok(version) => Ok(make_copies(alloc, entry, version, self.consoles)?),
            Err(denied) => Err(denied),
        }
    }

    /// Makes a prepared version the current one, shows it to every console, and gives a post the receipt of its entry. Nothing is refused, and no memory is taken.
    pub fn commit(&mut self, post: &mut Post<V, N>, prepared: Prepared<V>) -> Receipt
        requires current { Follows V.judges V.origin V.log self.old.current prepared }
        requires consoles { prepared.consoles ≡ N.posts }
        requires console { prepared.entry.console ≡ number_of post.old }
        requires room { 0 < post.old.room }
        ensures desk { self.new ≡ record { current = prepared.version; told = self.old.told + 1 } }
        ensures receipt { result ≡ receipt_of (length (V.log self.old.current)) prepared.entry }
        ensures post { post.new ≡ record {
          reader = record post.old.reader { seen = V.log prepared.version };
          receipts = post.old.receipts ++ result ∷ [];
          room = post.old.room - 1;
        } }
        ensures before { IsPrefix post.old.reader.seen (V.log self.old.current) }
        ensures origin { post.old.reader.origin ≡ Some (V.origin self.old.current) }
    {
        let Prepared {
            copies,
            entry: _,
            console,
            serial,
            number,
        } = prepared;
        let receipt = Receipt {
            console,
            serial,
            number,
        };
        self.writer.meet(&mut post.reader);
        self.writer.publish(copies);
        post.reader.learn(self.writer.note());
        self.book.add(&mut post.share, 1);
        post.receipts.push_reserved(receipt);
        receipt
    }

    /// Lets a post know all entries.
    pub fn tell(&mut self, post: &mut Post<V, N>)
        ensures same { self.new ≡ self.old }
        ensures post { post.new ≡ record post.old { reader = record post.old.reader { seen = V.log self.old.current } } }
        ensures before { IsPrefix post.old.reader.seen (V.log self.old.current) }
        ensures origin { post.old.reader.origin ≡ Some (V.origin self.old.current) }
    {
        self.writer.meet(&mut post.reader);
        post.reader.learn(self.writer.note());
    }

    /// Closes a room with all its posts: their receipts are the log's entries, each once. No memory is taken.
    pub fn close(self, posts: Vec<Post<V, N>>) -> Closed<V>
        requires room { N.posts ≡ N.parts }
        requires all { AreAllPosts N.posts posts.items }
        ensures last { result.last ≡ self.current }
        ensures legal { IsLegal (V.judges (V.origin self.current)) (V.log self.current) }
        ensures seen { All (λ post. IsPrefix post.reader.seen (V.log self.current)) posts.items }
        ensures began { All (λ post. post.reader.origin ≡ Some (V.origin self.current)) posts.items }
        ensures receipts { All (λ post. post.receipts ≡ receipts_in (number_of post) (V.log self.current)) posts.items }
        ensures serials { All (λ post. AreNumbered post.receipts) posts.items }
        ensures made { sum_by (λ post. length post.receipts) posts.items ≡ length (V.log self.current) }
    {
        let Desk {
            writer,
            mut book,
            gathered,
            returned,
            consoles: _,
        } = self;
        let (mut all, readers) = gather(posts, gathered, returned);
        book.audit(&mut all);
        close(writer, readers)
    }
}
