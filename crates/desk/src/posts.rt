//! How the ends of a board become posts, and posts become them again.
ghost use Rattle.std.specs.Prelude.{ℕ, ◌≡◌, ◌+◌, ◌<◌, ◌≤◌, [], All, length, map, vec_len, vec_capacity};
ghost use Rattle.std.specs.List.{sum_by};
ghost use Rattle.desk.specs.Ends.{number_of};
ghost use Rattle.desk.specs.Held.{AreFresh, AreSeated};
ghost use Rattle.desk.specs.Receipts.{AreSomeOf, receipts_in};

use crate::advance::Advance;
use crate::name::RoomName;
use crate::post::Post;
use board::Reader;
use std::alloc::Global;
use std::sync::ledger::Share;

/// Gives each reader a part of the ledger: a post for each, in their order, and what is left of the list and of the ledger.
pub(crate) fn hand_out<V: Advance + Send + Sync, N: RoomName>(
    alloc: Global,
    mut posts: Vec<Post<V, N>>,
    mut readers: Vec<Reader<V>>,
    mut all: Share<N>,
) -> (Vec<Post<V, N>>, Vec<Reader<V>>, Share<N>)
    requires few { length readers.items ≤ 16 }
    requires board { All (λ reader. reader.board ≡ N.board) readers.items }
    requires order { AreSeated readers.items }
    requires posts { (posts.items ≡ []) × (length readers.items ≤ vec_capacity posts) }
    requires parts { (all.parts ≡ length readers.items) × (all.amount ≡ 0) }
    ensures posts { AreFresh readers.items result.0.items }
    ensures readers { (result.1.items ≡ []) × (length readers.items ≤ vec_capacity result.1) }
    ensures rest { (result.2.parts ≡ 0) × (result.2.amount ≡ 0) }
{
    let mut console = 0;
    while !readers.is_empty() {
        let reader = readers.remove(0);
        console += 1;
        let share = all.split_off(1, 0);
        posts.push_reserved(Post::new(alloc, console, reader, share));
    }
    (posts, readers, all)
}

/// Takes all posts apart: their shares together, and their readers in their order.
pub(crate) fn gather<V: Advance + Send + Sync, N: RoomName>(
    mut posts: Vec<Post<V, N>>,
    mut all: Share<N>,
    mut readers: Vec<Reader<V>>,
) -> (Share<N>, Vec<Reader<V>>)
    requires share { (all.parts ≡ 0) × (all.amount ≡ 0) }
    requires readers { (readers.items ≡ []) × (length posts.items ≤ vec_capacity readers) }
    ensures parts { result.0.parts ≡ length posts.items }
    ensures amount { result.0.amount ≡ sum_by (λ post. length post.receipts) posts.items }
    ensures readers { result.1.items ≡ map (λ post. post.reader) posts.items }
    ensures board { All (λ post. post.reader.board ≡ N.board) posts.items }
    ensures named { All (λ post. AreSomeOf post.receipts (receipts_in (number_of post) post.reader.seen)) posts.items }
{
    while !posts.is_empty() {
        let (reader, share) = posts.remove(0).into_parts();
        all.merge(share);
        readers.push_reserved(reader);
    }
    (all, readers)
}
