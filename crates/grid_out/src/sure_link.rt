//! A link and a door that never fail: over them a session has no fault to answer.

ghost use Rattle.std.specs.Prelude.{◌≡◌, ◌<◌, ◌≤◌, ◌^◌, [], length, take, Some, None, IfOk, IfSome, OnErr, IsOk, IsTrue, false, is_err};
ghost use Rattle.grid_out.specs.Faults.{CountsFaults};
ghost use Rattle.grid_out.specs.Door.{AreAsMany, Gives, GivesNext, TakesBack, with_back};
ghost use Rattle.grid_out.specs.Link.{EndsWhereNoneIsLeft, TakesOff};

use crate::door::Door;
use crate::doorway::Doorway;
use crate::failure::{Failed, NoMemory};
use crate::input::Input;
use crate::link::Link;
use std::alloc::Global;
use std::marker::Model;

/// A link that never fails: it gives the bytes that it was made with, and keeps nothing of what is written.
#[derive(Drop)]
pub struct SureLink {
    input: Input,
}

impl Model for SureLink {
    ghost use Rattle.std.specs.Prelude.{ℕ, List};

    ghost Value = { List ℕ };

    ghost view = { λ link. link.input };
}

impl SureLink {
    /// A link that gives these bytes.
    pub fn new(alloc: Global, input: &[u8]) -> Result<SureLink, NoMemory>
        ensures { IfOk result (λ link. link ≡ input.now) }
    {
        Ok(SureLink {
            input: Input::new(alloc, input)?,
        })
    }
}

impl Link for SureLink {
    ghost read_faults = { λ _. 0 };

    ghost write_faults = { λ _. 0 };

    ghost left = { λ link. Some link };

    ghost written = { λ _. None };

    fn read(&mut self, into: &mut [u8]) -> Result<usize, Failed>
        requires { 0 < length into.old }
        ensures length { length into.new ≡ length into.old }
        ensures within { IfOk result (λ n. n ≤ length into.old) }
        ensures taken { IfOk result (λ n. TakesOff (Some self.old) (Some self.new) (take n into.new)) }
        ensures ended { IfOk result (EndsWhereNoneIsLeft (Some self.old)) }
        ensures failed { OnErr result (self.new ≡ self.old) }
        ensures cause { CountsFaults 0 0 (is_err result) }

        ensures sure { IsOk result }
    {
        Ok(self.input.read(into))
    }

    fn write(&mut self, _piece: &[u8]) -> Result<(), Failed>
        ensures left { self.new ≡ self.old }
        ensures cause { CountsFaults 0 0 (is_err result) }

        ensures sure { IsOk result }
    {
        Ok(())
    }
}

/// A door that never fails, over links that never fail.
#[derive(Drop)]
pub struct SureDoor {
    links: Doorway<SureLink>,
}

impl Model for SureDoor {
    ghost use Rattle.std.specs.Prelude.{ℕ, List};
    ghost use Rattle.grid_out.specs.Door.{Links};

    ghost Value = { Links (List ℕ) };

    ghost view = { λ door. door.links };
}

impl SureDoor {
    /// A door of these links.
    pub fn new(alloc: Global, links: Vec<SureLink>) -> Result<SureDoor, NoMemory>
        requires { length links.items < 2 ^ 32 }
        ensures { IfOk result (λ door. door ≡ record { coming = links.items; back = []; lent = false }) }
    {
        Ok(SureDoor {
            links: Doorway::new(alloc, links)?,
        })
    }
}

impl Door for SureDoor {
    type L = SureLink;

    ghost faults = { λ _. 0 };

    ghost number = { λ door. length door.coming };

    ghost coming = { λ door. Some door.coming };

    ghost back = { λ door. Some door.back };

    ghost lent = { λ door. door.lent };

    fn next(&mut self) -> Result<Option<SureLink>, Failed>
        ensures bounded { length self.old.coming < 2 ^ 32 }
        ensures as_many { AreAsMany (Some self.old.coming) (length self.old.coming) }
        ensures gives { IfOk result (λ given. Gives given (length self.old.coming) (length self.new.coming)
            (Some self.old.coming) (Some self.new.coming)) }
        ensures lent { IfOk result (λ given. IfSome given (λ _. IsTrue self.new.lent)) }
        ensures failed_number { OnErr result (length self.new.coming ≡ length self.old.coming) }
        ensures failed_coming { OnErr result (self.new.coming ≡ self.old.coming) }
        ensures back { self.new.back ≡ self.old.back }
        ensures cause { CountsFaults 0 0 (is_err result) }

        ensures sure { IsOk result }
    {
        Ok(self.links.next())
    }

    fn done(&mut self, link: SureLink)
        requires { IsTrue self.old.lent }
        ensures back { TakesBack (Some self.old.back) (Some self.new.back) link }
        ensures number { length self.new.coming ≡ length self.old.coming }
        ensures coming { self.new.coming ≡ self.old.coming }
    {
        self.links.take_back(link);
    }
}
