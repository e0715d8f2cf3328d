//! Going over the items of a map.

ghost use Rattle.std.specs.Prelude.{◌≡◌, ◌++◌, [], drop};
ghost use Rattle.std.specs.Iterator.{YieldsFirstRef, item_count};
ghost use Rattle.graph_pages.specs.Buckets.{all_items};

use crate::bucket::{Bucket, Held};
use crate::keyed::Keyed;
use shared_parts::SharedPages;
use std::marker::Model;

/// Goes over the items of a map, bucket by bucket. Contracts see it as the list of those that are left.
#[derive(Drop)]
pub(crate) struct Entries<'a, T: Keyed> {
    buckets: &'a SharedPages<Bucket<T>>,
    /// What is left of the bucket before the next one.
    current: &'a [Held<T>],
    /// The index of the next bucket.
    next: usize,
}

impl<'a, T: Keyed> Model for Entries<'a, T> {
    ghost use Rattle.std.specs.Prelude.{List, drop, ◌++◌};
    ghost use Rattle.graph_pages.specs.Buckets.{all_items};

    ghost Value = { List T };

    ghost view = { λ entries. entries.current.now ++ all_items (drop entries.next entries.buckets.now) };
}

impl<'a, T: Keyed> Entries<'a, T> {
    /// Goes over the items of all buckets.
    pub(crate) fn of(buckets: &'a SharedPages<Bucket<T>>) -> Self
        ensures { result ≡ all_items buckets.now }
    {
        Entries {
            buckets,
            current: &[],
            next: 0,
        }
    }
}

impl<'a, T: Keyed> Iterator for Entries<'a, T> {
    type Item = &'a T;

    ghost next_gives = { YieldsFirstRef (λ left. left) };

    ghost remaining = { item_count (λ left. left) };

    fn next(&mut self) -> Option<&'a T> {
        let (current, next) = filled(self.buckets, self.current, self.next);
        self.next = next;
        let [first, rest @ ..] = current else {
            self.current = current;
            return None;
        };
        self.current = rest;
        Some(&first.item)
    }
}

/// What is left of a bucket, or the next bucket that has items, and the index of the bucket behind. Nothing is left only at the end.
fn filled<'a, T: Keyed>(
    buckets: &'a SharedPages<Bucket<T>>,
    left: &'a [Held<T>],
    behind: usize,
) -> (&'a [Held<T>], usize)
    ensures same { result.0.now ++ all_items (drop result.1 buckets.now) ≡ left.now ++ all_items (drop behind buckets.now) }
    ensures end { result.0.now ≡ [] → all_items (drop result.1 buckets.now) ≡ [] }
{
    let mut current = left;
    let mut next = behind;
    while next < buckets.len() {
        if !current.is_empty() {
            return (current, next);
        }
        current = &buckets.get(next).held;
        next += 1;
    }
    (current, next)
}
