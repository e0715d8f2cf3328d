//! Lists of a fixed number of items whose shares keep what they hold.

ghost use Rattle.std.specs.Prelude.{◌≡◌, ◌+◌, ◌<◌, ◌≤◌, length, slice_index_or, slice_set, IfOk, OnOk, OnErr};

use crate::leaf::Leaf;
use crate::page::Page;
use crate::row::Row;
use crate::share::{NoMemory, Share};
use std::alloc::Global;
use std::marker::Model;
use std::sync::ledger::Ledger;
use step_count::Steps;

/// The pages of a list, four of them one in another down to an item. The topmost one has as many pages as it takes.
type Top<T> = Row<T, Row<T, Row<T, Row<T, Leaf<T>>>>>;

/// A fixed number of items. Its shares have most pages in common, and each keeps what it holds when an item of another is put.
#[derive(Drop)]
pub struct SharedPages<T: Drop> {
    alloc: Global,
    len: usize,
    top: Top<T>,
}

impl<T: Drop> Model for SharedPages<T> {
    ghost use Rattle.std.specs.Prelude.{◌≡◌, List, length};

    ghost Value = { List T };

    ghost view = { λ pages. pages.top };

    ghost invariant = { λ pages. pages.len ≡ length pages.top };
}

impl<T: Drop> SharedPages<T> {
    /// The pages of these items, one tick for each.
    pub fn of_list<L: Ledger>(
        alloc: Global,
        items: Vec<T>,
        steps: &mut Steps<L>,
    ) -> Result<Self, NoMemory>
        ensures ok { IfOk result (λ pages. pages ≡ items.items) }
        ensures ticks { OnOk result (steps.new ≡ steps.old + length items.items) }
        ensures bound { steps.new ≤ steps.old + length items.items }
    {
        let len = items.len();
        let mut rest = items.into_iter();
        let top = Row::of_width(alloc, len, &mut rest, steps)?;
        Ok(SharedPages { alloc, len, top })
    }

    /// How many items there are.
    pub fn len(&self) -> usize
        ensures { result ≡ length self.now }
    {
        self.len
    }

    /// The item at an index.
    pub fn get(&self, index: usize) -> &T
        requires { index < length self.now }
        ensures { result.now ≡ slice_index_or self.now index result.now }
    {
        self.top.at(index)
    }

    /// Sets the item at an index, one tick. If there is no memory for it, the items are as before.
    pub fn put<L: Ledger>(
        &mut self,
        index: usize,
        value: T,
        steps: &mut Steps<L>,
    ) -> Result<(), NoMemory>
        requires { index < length self.old }
        ensures ok { OnOk result (self.new ≡ slice_set self.old index value) }
        ensures refused { OnErr result (self.new ≡ self.old) }
        ensures ticks { OnOk result (steps.new ≡ steps.old + 1) }
        ensures bound { steps.new ≤ steps.old + 1 }
    {
        steps.tick();
        self.top = self.top.with(self.alloc, index, value)?;
        Ok(())
    }
}

impl<T: Drop> Share for SharedPages<T> {
    fn share(&self) -> Result<Self, NoMemory> {
        Ok(SharedPages {
            alloc: self.alloc,
            len: self.len,
            top: self.top.share()?,
        })
    }
}
