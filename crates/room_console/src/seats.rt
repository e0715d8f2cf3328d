//! How posts become consoles, and consoles posts again.
ghost use Rattle.std.specs.Prelude.{◌≡◌, ◌≤◌, [], All, length, vec_capacity};
ghost use Rattle.desk.specs.Consoles.{IsConsole};
ghost use Rattle.desk.specs.Ends.{number_of};

use crate::console::Console;
use desk::{Advance, Post, RoomName};

/// A console for each post, in their order, and what is left of the list of posts.
pub(crate) fn seat_all<V: Advance + Send + Sync, N: RoomName>(
    mut posts: Vec<Post<V, N>>,
    mut consoles: Vec<Console<V, N>>,
) -> (Vec<Post<V, N>>, Vec<Console<V, N>>)
    requires console { All (λ post. IsConsole (number_of post)) posts.items }
    requires fresh { All (λ post. (post.reader.seen ≡ []) × (post.receipts ≡ [])) posts.items }
    requires consoles { (consoles.items ≡ []) × (length posts.items ≤ vec_capacity consoles) }
    ensures posts { (result.0.items ≡ []) × (length posts.items ≤ vec_capacity result.0) }
    ensures consoles { result.1.items ≡ posts.items }
{
    while !posts.is_empty() {
        consoles.push_reserved(Console::new(posts.remove(0)));
    }
    (posts, consoles)
}

/// The posts of all consoles, in their order.
pub(crate) fn gather<V: Advance + Send + Sync, N: RoomName>(
    mut consoles: Vec<Console<V, N>>,
    mut posts: Vec<Post<V, N>>,
) -> Vec<Post<V, N>>
    requires { (posts.items ≡ []) × (length consoles.items ≤ vec_capacity posts) }
    ensures { result.items ≡ consoles.items }
{
    while !consoles.is_empty() {
        posts.push_reserved(consoles.remove(0).into_post());
    }
    posts
}
