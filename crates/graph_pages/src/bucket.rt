//! The items of one page: those whose keys fall to it.

ghost use Rattle.std.specs.Prelude.{◌≡◌, ◌++◌, ◌∷◌, [], IfOk, OnOk, option_copied};
ghost use Rattle.graph_pages.specs.Keyed.{item_at, items_but};

use crate::keyed::Keyed;
use cim_words::NoMemory;
use std::alloc::Global;
use std::marker::Model;
use std::sync::Arc;

/// An item that buckets share. Contracts see it as the item.
#[derive(Drop)]
pub(crate) struct Held<T> {
    pub(crate) item: Arc<T>,
}

impl<T> Model for Held<T> {
    ghost use Rattle.std.specs.Arc.{arc_value};

    ghost Value = { T };

    ghost view = { λ held. arc_value held.item };
}

/// A few items. Contracts see them as a list.
#[derive(Drop)]
pub(crate) struct Bucket<T> {
    pub(crate) held: Vec<Held<T>>,
}

impl<T> Model for Bucket<T> {
    ghost use Rattle.std.specs.Prelude.{List};

    ghost Value = { List T };

    ghost view = { λ bucket. bucket.held.items };
}

impl<T: Keyed> Bucket<T> {
    /// No items.
    pub(crate) fn empty(alloc: Global) -> Self
        ensures { result ≡ [] }
    {
        Bucket {
            held: Vec::new(alloc),
        }
    }

    /// The item of a key.
    pub(crate) fn get(&self, key: T::Key) -> Option<&T>
        ensures { option_copied result ≡ item_at T.key_of T.same_key key self.now }
    {
        for held in &self.held {
            if held.item.is_at(key) {
                return Some(&held.item);
            }
        }
        None
    }

    /// One more item.
    pub(crate) fn push(&mut self, alloc: Global, item: T) -> Result<(), NoMemory>
        ensures { OnOk result (self.new ≡ self.old ++ item ∷ []) }
    {
        let item = Arc::new(alloc, item)?;
        self.held.push(Held { item })?;
        Ok(())
    }

    /// The same items, shared, but those of a key.
    pub(crate) fn without(&self, alloc: Global, key: T::Key) -> Result<Self, NoMemory>
        ensures { IfOk result (λ bucket. bucket ≡ items_but T.key_of T.same_key key self.now) }
    {
        let mut held = Vec::new(alloc);
        for one in &self.held {
            if !one.item.is_at(key) {
                let item = Arc::try_clone(&one.item)?;
                held.push(Held { item })?;
            }
        }
        Ok(Bucket { held })
    }
}
