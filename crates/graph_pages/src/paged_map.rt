//! Maps whose shares keep what they hold.

ghost use Rattle.std.specs.Prelude.{◌≡◌, ◌≤◌, ◌<◌, ◌+◌, ℕ, Some, None, cond, map, option_copied, sum_by, IfOk, OnOk, OnErr};
ghost use Rattle.std.specs.List.{IsDistinct};
ghost use Rattle.graph_pages.specs.Buckets.{place_of};
ghost use Rattle.graph_pages.specs.Keyed.{item_at, size_in};

use crate::bucket::Bucket;
use crate::entries::Entries;
use crate::keyed::Keyed;
use cim_words::NoMemory;
use shared_parts::{Share, SharedPages};
use std::alloc::Global;
use std::marker::Model;
use std::sync::ledger::Ledger;
use step_count::Steps;

/// Items under keys of their own, spread over pages by a fold of the key. Contracts see them as a list in no stated order.
#[derive(Drop)]
pub(crate) struct PagedMap<T: Keyed> {
    pub(crate) alloc: Global,
    pub(crate) buckets: SharedPages<Bucket<T>>,
}

impl<T: Keyed> Model for PagedMap<T> {
    ghost use Rattle.std.specs.Prelude.{List, ◌<◌, length};
    ghost use Rattle.graph_pages.specs.Buckets.{AreBuckets, all_items};

    ghost Value = { List T };

    ghost view = { λ map. all_items map.buckets };

    ghost invariant = { λ map. AreBuckets T.key_of T.same_key T.fold_of map.buckets × (0 < length map.buckets) };
}

impl<T: Keyed> PagedMap<T> {
    /// The item of a key.
    pub(crate) fn get(&self, key: T::Key) -> Option<&T>
        ensures { option_copied result ≡ item_at T.key_of T.same_key key self.now }
    {
        let place = place_of::<T>(key, self.buckets.len());
        self.buckets.get(place).get(key)
    }

    /// Puts an item under its key, one tick. Where it is refused, the items are as before.
    pub(crate) fn put<L: Ledger>(&mut self, item: T, steps: &mut Steps<L>) -> Result<(), NoMemory>
        ensures found { OnOk result ((k : T.Key) → item_at T.key_of T.same_key k self.new
            ≡ cond (T.same_key (T.key_of item) k) (Some item) (item_at T.key_of T.same_key k self.old)) }
        ensures sizes { OnOk result ((size : T → ℕ) → sum_by size self.new + size_in size (item_at T.key_of T.same_key (T.key_of item) self.old)
            ≡ sum_by size self.old + size item) }
        ensures refused { OnErr result (self.new ≡ self.old) }
        ensures ticks { OnOk result (steps.new ≡ steps.old + 1) }
        ensures bound { steps.new ≤ steps.old + 1 }
    {
        let key = item.key();
        let place = place_of::<T>(key, self.buckets.len());
        let mut bucket = self.buckets.get(place).without(self.alloc, key)?;
        bucket.push(self.alloc, item)?;
        self.buckets.put(place, bucket, steps)?;
        Ok(())
    }

    /// Drops the item of a key, if there is one, one tick. Where it is refused, the items are as before.
    pub(crate) fn remove<L: Ledger>(
        &mut self,
        key: T::Key,
        steps: &mut Steps<L>,
    ) -> Result<(), NoMemory>
        ensures found { OnOk result ((k : T.Key) → item_at T.key_of T.same_key k self.new
            ≡ cond (T.same_key key k) None (item_at T.key_of T.same_key k self.old)) }
        ensures sizes { OnOk result ((size : T → ℕ) → sum_by size self.new + size_in size (item_at T.key_of T.same_key key self.old)
            ≡ sum_by size self.old) }
        ensures refused { OnErr result (self.new ≡ self.old) }
        ensures ticks { OnOk result (steps.new ≡ steps.old + 1) }
        ensures bound { steps.new ≤ steps.old + 1 }
    {
        let place = place_of::<T>(key, self.buckets.len());
        let bucket = self.buckets.get(place).without(self.alloc, key)?;
        self.buckets.put(place, bucket, steps)?;
        Ok(())
    }

    /// Goes over the items, each once.
    pub(crate) fn entries(&self) -> Entries<'_, T>
        ensures all { result ≡ self.now }
        ensures once { IsDistinct T.same_key (map T.key_of result) }
    {
        Entries::of(&self.buckets)
    }
}

impl<T: Keyed> Share for PagedMap<T> {
    fn share(&self) -> Result<Self, NoMemory> {
        Ok(PagedMap {
            alloc: self.alloc,
            buckets: self.buckets.share()?,
        })
    }
}

/// The bucket of a key, among so many.
pub(crate) fn place_of<T: Keyed>(key: T::Key, count: usize) -> usize
    requires { 0 < count }
    ensures is { result ≡ place_of T.fold_of count key }
    ensures within { result < count }
{
    T::fold(key) as usize % count
}
