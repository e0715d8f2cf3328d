//! The links of a door in memory: which still come, which came back, and whether one is out.

ghost use Rattle.std.specs.Prelude.{◌≡◌, ◌<◌, ◌^◌, [], length, false, IsTrue, IfOk};
ghost use Rattle.grid_out.specs.Door.{GivesNext, with_back};

use crate::failure::NoMemory;
use std::alloc::Global;
use std::collections::VecDeque;
use std::marker::Model;

/// Links that are given one after another, and those that were given back.
#[derive(Drop)]
pub(crate) struct Doorway<L> {
    coming: VecDeque<L>,
    back: Vec<L>,
    lent: bool,
}

impl<L> Model for Doorway<L> {
    ghost use Rattle.std.specs.Prelude.{◌+◌, ◌≤◌, ◌<◌, ◌^◌, length, vec_len, vec_capacity};
    ghost use Rattle.grid_out.specs.Door.{Links, count_lent};

    ghost Value = { Links L };

    ghost view = { λ doorway. record {
      coming = doorway.coming.items;
      back = doorway.back.items;
      lent = doorway.lent;
    } };

    // The memory for all that come back is taken beforehand.
    ghost invariant = { λ doorway. (length doorway.coming.items < 2 ^ 32)
        × (vec_len doorway.back + length doorway.coming.items + count_lent doorway.lent ≤ vec_capacity doorway.back) };
}

impl<L: Drop> Doorway<L> {
    /// A doorway for these links, of which none has come back.
    pub(crate) fn new(alloc: Global, links: Vec<L>) -> Result<Doorway<L>, NoMemory>
        requires { length links.items < 2 ^ 32 }
        ensures { IfOk result (λ doorway. doorway ≡ record { coming = links.items; back = []; lent = false }) }
    {
        let back = Vec::with_capacity(alloc, links.len())?;
        Ok(Doorway {
            coming: VecDeque::from(links),
            back,
            lent: false,
        })
    }

    /// The next link, if one is left.
    pub(crate) fn next(&mut self) -> Option<L>
        ensures bounded { length self.old.coming < 2 ^ 32 }
        ensures gives { GivesNext self.old result self.new }
    {
        let link = self.coming.pop_front()?;
        self.lent = true;
        Some(link)
    }

    /// Takes back the link that was given last.
    pub(crate) fn take_back(&mut self, link: L)
        requires { IsTrue self.old.lent }
        ensures { self.new ≡ with_back self.old link }
    {
        self.back.push(link).unwrap();
        self.lent = false;
    }

    /// The links that were given back.
    pub(crate) fn back(&self) -> &[L]
        ensures { result.now ≡ self.now.back }
    {
        &self.back
    }
}
