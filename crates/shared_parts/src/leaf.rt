//! The lowest pages: single items.

ghost use Rattle.std.specs.Prelude.{◌∷◌, []};

use crate::page::Page;
use crate::share::{NoMemory, Share};
use std::alloc::Global;
use std::marker::Model;
use std::sync::Arc;
use std::sync::ledger::Ledger;
use std::vec::IntoIter;
use step_count::Steps;

/// A single item. Contracts see it as that item.
#[derive(Drop)]
pub(crate) struct Leaf<T> {
    item: Arc<T>,
}

impl<T> Model for Leaf<T> {
    ghost use Rattle.std.specs.Arc.{arc_value};

    ghost Value = { T };

    ghost view = { λ leaf. arc_value leaf.item };
}

impl<T> Share for Leaf<T> {
    fn share(&self) -> Result<Self, NoMemory> {
        Ok(Leaf {
            item: Arc::try_clone(&self.item)?,
        })
    }
}

impl<T: Drop> Page<T> for Leaf<T> {
    ghost items = { λ leaf. leaf ∷ [] };

    ghost full = { 1 };

    ghost use Rattle.std.proofs.Common.{arith};

    ghost some = { Prim.omega arith };

    fn full_len() -> usize {
        1
    }

    fn at(&self, _index: usize) -> &T {
        &self.item
    }

    fn with(&self, alloc: Global, _index: usize, item: T) -> Result<Self, NoMemory> {
        Ok(Leaf {
            item: Arc::new(alloc, item)?,
        })
    }

    fn of_next<L: Ledger>(
        alloc: Global,
        rest: &mut IntoIter<T>,
        steps: &mut Steps<L>,
    ) -> Result<Self, NoMemory> {
        steps.tick();
        match rest.next() {
            Some(item) => Ok(Leaf {
                item: Arc::new(alloc, item)?,
            }),
            None => unreachable!(),
        }
    }
}
