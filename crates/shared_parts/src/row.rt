//! Pages of pages.

ghost use Rattle.std.specs.Prelude.{◌≡◌, ◌+◌, ◌*◌, ◌≤◌, ◌<◌, ◌++◌, length, IfOk, OnOk};
ghost use Rattle.std.specs.Vec.Iter.{into_iter_items, into_iter_len};

use crate::page::Page;
use crate::share::{NoMemory, Share};
use std::alloc::Global;
use std::marker::{Model, PhantomData};
use std::sync::Arc;
use std::sync::ledger::Ledger;
use std::vec::IntoIter;
use step_count::Steps;

/// How many pages a full page of pages has.
const WIDTH: usize = 32;

/// Pages that follow each other. All but the last are full. Contracts see them as the list of their items.
// It holds pages of another type and not of its own, so that it may cross threads where its items may.
#[derive(Drop)]
pub(crate) struct Row<T, P: Page<T>> {
    pages: Arc<Vec<P>>,
    of: PhantomData<T>,
}

impl<T, P: Page<T>> Model for Row<T, P> {
    ghost use Rattle.std.specs.Prelude.{List};
    ghost use Rattle.std.specs.Arc.{arc_value};
    ghost use Rattle.std.specs.List.{flat_map};
    ghost use Rattle.shared_parts.specs.Pages.{AreFilled};

    ghost Value = { List T };

    ghost view = { λ row. flat_map P.items (arc_value row.pages).items };

    ghost invariant = { λ row. AreFilled P.items P.full (arc_value row.pages).items };
}

impl<T: Drop, P: Page<T>> Row<T, P> {
    /// The next items in at most so many pages, one tick for each item. It leaves some only where all its pages are full.
    pub(crate) fn of_width<L: Ledger>(
        alloc: Global,
        width: usize,
        rest: &mut IntoIter<T>,
        steps: &mut Steps<L>,
    ) -> Result<Self, NoMemory>
        ensures taken { IfOk result (λ row. row ++ into_iter_items rest.new ≡ into_iter_items rest.old) }
        ensures most { IfOk result (λ row. length row ≤ P.full * width) }
        ensures full { IfOk result (λ row. 0 < into_iter_len rest.new → length row ≡ P.full * width) }
        ensures ticks { OnOk result (steps.new + into_iter_len rest.new ≡ steps.old + into_iter_len rest.old) }
        ensures bound { steps.new ≤ steps.old + into_iter_len rest.old }
    {
        let mut pages = Vec::new(alloc);
        for _ in 0..width {
            if rest.len() == 0 {
                break;
            }
            pages.push(P::of_next(alloc, rest, steps)?)?;
        }
        Ok(Row {
            pages: Arc::new(alloc, pages)?,
            of: PhantomData,
        })
    }
}

/// Shares of pages.
fn shares<P: Share + Drop>(alloc: Global, pages: &[P]) -> Result<Vec<P>, NoMemory>
    ensures { IfOk result (λ shares. shares.items ≡ pages.now) }
{
    let mut shares = Vec::with_capacity(alloc, pages.len())?;
    for page in pages {
        shares.push(page.share()?)?;
    }
    Ok(shares)
}

impl<T, P: Page<T>> Share for Row<T, P> {
    fn share(&self) -> Result<Self, NoMemory> {
        Ok(Row {
            pages: Arc::try_clone(&self.pages)?,
            of: PhantomData,
        })
    }
}

impl<T: Drop, P: Page<T>> Page<T> for Row<T, P> {
    ghost use Rattle.std.specs.Prelude.{◌-◌, ◌*◌, ◌^◌, min};
    ghost use Rattle.std.proofs.Common.{arith};
    ghost use Rattle.shared_parts.specs.declared.row.TheConstants.{WIDTH};

    ghost items = { λ row. row };

    ghost full = { min (P.full * WIDTH) (2 ^ 64 - 1) };

    ghost some = { Prim.omega (arith, P.some) };

    // No memory holds more items than it saturates at.
    fn full_len() -> usize {
        P::full_len().saturating_mul(WIDTH)
    }

    fn at(&self, index: usize) -> &T {
        let full = P::full_len();
        self.pages[index / full].at(index % full)
    }

    fn with(&self, alloc: Global, index: usize, item: T) -> Result<Self, NoMemory> {
        let full = P::full_len();
        let page = self.pages[index / full].with(alloc, index % full, item)?;
        let mut pages = shares(alloc, &self.pages)?;
        pages[index / full] = page;
        Ok(Row {
            pages: Arc::new(alloc, pages)?,
            of: PhantomData,
        })
    }

    fn of_next<L: Ledger>(
        alloc: Global,
        rest: &mut IntoIter<T>,
        steps: &mut Steps<L>,
    ) -> Result<Self, NoMemory> {
        Row::of_width(alloc, WIDTH, rest, steps)
    }
}
