//! Pages: consecutive items of a list, which pages above hold and share.

ghost use Rattle.std.specs.Prelude.{◌≡◌, ◌+◌, ◌≤◌, ◌<◌, ◌++◌, length, slice_index_or, slice_set, IfOk, OnOk};
ghost use Rattle.std.specs.Vec.Iter.{into_iter_items, into_iter_len};

use crate::share::{NoMemory, Share};
use std::alloc::Global;
use std::sync::ledger::Ledger;
use std::vec::IntoIter;
use step_count::Steps;

/// Consecutive items of a list, of which a share keeps what it holds.
pub(crate) trait Page<T>: Share + Drop {
    ghost use Rattle.std.specs.Prelude.{ℕ, List};

    /// The items, in order.
    ghost items: { Self → List T };

    /// How many items a full page has.
    ghost full: { ℕ };

    /// How many items a full page has.
    fn full_len() -> usize
        ensures { result ≡ full };

    /// The item at an index.
    fn at(&self, index: usize) -> &T
        requires { index < length (items self.now) }
        ensures { result.now ≡ slice_index_or (items self.now) index result.now };

    /// The page with one item set. This page keeps its items.
    fn with(&self, alloc: Global, index: usize, item: T) -> Result<Self, NoMemory>
        requires { index < length (items self.now) }
        ensures { IfOk result (λ page. items page ≡ slice_set (items self.now) index item) };

    /// A page of the next items, which is full unless they are too few, one tick for each.
    fn of_next<L: Ledger>(
        alloc: Global,
        rest: &mut IntoIter<T>,
        steps: &mut Steps<L>,
    ) -> Result<Self, NoMemory>
        requires { 0 < into_iter_len rest.old }
        ensures taken { IfOk result (λ page. items page ++ into_iter_items rest.new ≡ into_iter_items rest.old) }
        ensures most { IfOk result (λ page. length (items page) ≤ full) }
        ensures full { IfOk result (λ page. 0 < into_iter_len rest.new → length (items page) ≡ full) }
        ensures ticks { OnOk result (steps.new + into_iter_len rest.new ≡ steps.old + into_iter_len rest.old) }
        ensures bound { steps.new ≤ steps.old + into_iter_len rest.old };

    /// A full page has some.
    ghost some: { 0 < full };
}
