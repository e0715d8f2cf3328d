//! Lists whose shares keep what they hold.

ghost use Rattle.std.specs.Prelude.{◌≡◌, ◌<◌, ◌++◌, ◌∷◌, [], length, slice_index_or, OnOk, IfErr};

use crate::items::Items;
use crate::node::{Link, Node, len_up_to, share_link};
use crate::share::{NoMemory, Share};
use std::alloc::Global;
use std::marker::Model;

/// A list that grows at its end. Its shares have most of it in common, and each keeps what it holds when another grows.
#[derive(Drop)]
pub struct SharedList<T> {
    alloc: Global,
    /// The node of the last item.
    last: Link<T>,
}

impl<T> Model for SharedList<T> {
    ghost use Rattle.std.specs.Prelude.{List};
    ghost use Rattle.shared_parts.specs.Places.{items_up_to};

    ghost Value = { List T };

    ghost view = { λ list. items_up_to list.last };
}

impl<T> SharedList<T> {
    /// A list of no items.
    pub fn new(alloc: Global) -> Self
        ensures { result ≡ [] }
    {
        SharedList { alloc, last: None }
    }

    /// How many items the list has.
    pub fn len(&self) -> usize
        ensures { result ≡ length self.now }
    {
        len_up_to(&self.last)
    }

    /// The item at an index.
    pub fn at(&self, index: usize) -> &T
        requires { index < length self.now }
        ensures { result.now ≡ slice_index_or self.now index result.now }
    {
        match &self.last {
            Some(node) => node.at(index),
            None => unreachable!(),
        }
    }

    /// Goes over the items, in order.
    pub fn iter(&self) -> Items<'_, T>
        ensures { result ≡ self.now }
    {
        Items::of(self)
    }
}

impl<T: Drop> SharedList<T> {
    /// Puts an item at the end. If there is no memory for it, the list is as before and the item is handed back.
    pub fn push(&mut self, item: T) -> Result<(), (NoMemory, T)>
        ensures ok { OnOk result (self.new ≡ self.old ++ item ∷ []) }
        ensures refused { IfErr result (λ refusal. (self.new ≡ self.old) × (refusal.1 ≡ item)) }
    {
        let node = Node::after(self.alloc, &self.last, item)?;
        self.last = Some(node);
        Ok(())
    }
}

impl<T> Share for SharedList<T> {
    fn share(&self) -> Result<Self, NoMemory> {
        Ok(SharedList {
            alloc: self.alloc,
            last: share_link(&self.last)?,
        })
    }
}
