//! Going over the items of a shared list.

ghost use Rattle.std.specs.Prelude.{◌≡◌};
ghost use Rattle.std.specs.Iterator.{YieldsFirstRef, item_count};

use crate::shared_list::SharedList;
use std::marker::Model;

/// Goes over the items of a list, in order. Contracts see it as the list of those that are left.
#[derive(Drop)]
pub struct Items<'a, T> {
    list: &'a SharedList<T>,
    /// The index of the next item.
    next: usize,
}

impl<'a, T> Model for Items<'a, T> {
    ghost use Rattle.std.specs.Prelude.{List, drop, length, ◌≤◌};

    ghost Value = { List T };

    ghost view = { λ items. drop items.next items.list.now };

    ghost invariant = { λ items. items.next ≤ length items.list.now };
}

impl<'a, T> Items<'a, T> {
    /// Goes over all items of a list.
    pub(crate) fn of(list: &'a SharedList<T>) -> Self
        ensures { result ≡ list.now }
    {
        Items { list, next: 0 }
    }
}

impl<'a, T> Iterator for Items<'a, T> {
    type Item = &'a T;

    ghost next_gives = { YieldsFirstRef (λ left. left) };

    ghost remaining = { item_count (λ left. left) };

    fn next(&mut self) -> Option<&'a T> {
        if self.next == self.list.len() {
            return None;
        }
        let item = self.list.at(self.next);
        self.next += 1;
        Some(item)
    }
}
