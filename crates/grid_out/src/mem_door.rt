//! A door in memory, whose calls fail where they are told to.

ghost use Rattle.std.specs.Prelude.{◌≡◌, ◌↔◌, ◌<◌, ◌^◌, [], length, Some, IfOk, OnErr, IfSome, IsErr, IsTrue, is_err, false};
ghost use Rattle.grid_out.specs.Faults.{CountsFaults, is_listed, next_count};
ghost use Rattle.grid_out.specs.Door.{AreAsMany, Gives, GivesNext, TakesBack, with_back};

use crate::door::Door;
use crate::doorway::Doorway;
use crate::failure::{Failed, NoMemory};
use crate::mem_link::MemLink;
use std::alloc::Global;
use std::marker::Model;

/// A door that gives the links that it was made with. A call of `next` fails where its number, from 1, is listed.
#[derive(Drop)]
pub struct MemDoor {
    links: Doorway<MemLink>,
    failing: Vec<u64>,
    calls: u64,
    faults: u64,
}

impl Model for MemDoor {
    ghost use Rattle.std.specs.Prelude.{◌<◌, ◌^◌, length};
    ghost use Rattle.grid_out.specs.Door.{DoorState};
    ghost use Rattle.grid_out.specs.Link.{LinkState};

    ghost Value = { DoorState LinkState };

    ghost view = { λ door. record {
      links = door.links;
      failing = door.failing.items;
      calls = door.calls;
      faults = door.faults;
    } };

    ghost invariant = { λ door. length door.links.coming < 2 ^ 32 };
}

impl MemDoor {
    /// A door of these links, whose calls of `next` of the listed numbers fail.
    pub fn new(alloc: Global, links: Vec<MemLink>, failing: &[u64]) -> Result<MemDoor, NoMemory>
        requires { length links.items < 2 ^ 32 }
        ensures { IfOk result (λ door. door ≡ record {
          links = record { coming = links.items; back = []; lent = false };
          failing = failing.now;
          calls = 0;
          faults = 0;
        }) }
    {
        Ok(MemDoor {
            links: Doorway::new(alloc, links)?,
            failing: Vec::from_slice(alloc, failing)?,
            calls: 0,
            faults: 0,
        })
    }

    /// The links that were given back, in their order.
    pub fn back(&self) -> &[MemLink]
        ensures { result.now ≡ self.now.links.back }
    {
        self.links.back()
    }
}

impl Door for MemDoor {
    type L = MemLink;

    ghost faults = { λ door. door.faults };

    ghost number = { λ door. length door.links.coming };

    ghost coming = { λ door. Some door.links.coming };

    ghost back = { λ door. Some door.links.back };

    ghost lent = { λ door. door.links.lent };

    fn next(&mut self) -> Result<Option<MemLink>, Failed>
        ensures bounded { length self.old.links.coming < 2 ^ 32 }
        ensures as_many { AreAsMany (Some self.old.links.coming) (length self.old.links.coming) }
        ensures gives { IfOk result (λ given. Gives given (length self.old.links.coming) (length self.new.links.coming)
            (Some self.old.links.coming) (Some self.new.links.coming)) }
        ensures lent { IfOk result (λ given. IfSome given (λ _. IsTrue self.new.links.lent)) }
        ensures failed_number { OnErr result (length self.new.links.coming ≡ length self.old.links.coming) }
        ensures failed_coming { OnErr result (self.new.links.coming ≡ self.old.links.coming) }
        ensures back { self.new.links.back ≡ self.old.links.back }
        ensures cause { CountsFaults self.old.faults self.new.faults (is_err result) }

        ensures fails { IsErr result ↔ IsTrue (is_listed self.old.failing self.old.calls) }
        ensures links { IfOk result (λ given. GivesNext self.old.links given self.new.links) }
        ensures failed_links { OnErr result (self.new.links ≡ self.old.links) }
        ensures calls { self.new.calls ≡ next_count self.old.calls }
        ensures failing { self.new.failing ≡ self.old.failing }
    {
        self.calls = self.calls.saturating_add(1);
        if self.failing.contains(&self.calls) {
            self.faults = self.faults.saturating_add(1);
            return Err(Failed);
        }
        Ok(self.links.next())
    }

    fn done(&mut self, link: MemLink)
        requires { IsTrue self.old.links.lent }
        ensures back { TakesBack (Some self.old.links.back) (Some self.new.links.back) link }
        ensures number { length self.new.links.coming ≡ length self.old.links.coming }
        ensures coming { self.new.links.coming ≡ self.old.links.coming }
        ensures faults { self.new.faults ≡ self.old.faults }

        ensures after { self.new ≡ record self.old { links = with_back self.old.links link } }
    {
        self.links.take_back(link);
    }
}
