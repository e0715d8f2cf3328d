//! A shelf in memory, whose calls fail where they are told to.

ghost use Rattle.std.specs.Prelude.{◌≡◌, ℕ, ◌≤◌, ◌<◌, ◌↔◌, List, [], ◌∷◌, length, Some, IfSome, IfOk, OnOk, OnErr, IsErrOf, IsTrue, IsFalse};
ghost use Rattle.grid_out.specs.Faults.{CountsFaults};
ghost use Rattle.grid_out.specs.Files.{content_of};
ghost use Rattle.grid_out.specs.Shelf.{AsksFor, is_failed, shelf_after, shelf_fails};

use crate::failure::NoMemory;
use crate::file_list::Files;
use crate::notes::Notes;
use crate::shelf::{Shelf, ShelfFault, copy_within};
use std::alloc::Global;
use std::marker::Model;

/// A shelf over a list of files. It fails at a name that it lacks, and at each call whose number,
/// from 1, is listed.
#[derive(Drop)]
pub struct MemShelf {
    files: Files,
    failing: Vec<u64>,
    calls: u64,
    faults: u64,
    asked: Notes,
}

impl Model for MemShelf {
    ghost use Rattle.grid_out.specs.Shelf.{ShelfState};

    ghost Value = { ShelfState };

    ghost view = { λ shelf. record {
      files = shelf.files;
      failing = shelf.failing.items;
      calls = shelf.calls;
      faults = shelf.faults;
      asked = shelf.asked;
    } };
}

impl MemShelf {
    /// A shelf of these files, whose calls of the listed numbers fail.
    pub fn new(alloc: Global, files: Files, failing: &[u64]) -> Result<MemShelf, NoMemory>
        ensures { IfOk result (λ shelf. shelf ≡
            record { files = files; failing = failing.now; calls = 0; faults = 0; asked = Some [] }) }
    {
        Ok(MemShelf {
            files,
            failing: Vec::from_slice(alloc, failing)?,
            calls: 0,
            faults: 0,
            asked: Notes::new(alloc),
        })
    }

    /// The names that it was asked for.
    pub fn asked(&self) -> &Notes
        ensures { result.now ≡ self.now.asked }
    {
        &self.asked
    }
}

impl Shelf for MemShelf {
    ghost faults = { λ shelf. shelf.faults };

    ghost content = { λ shelf. content_of shelf.files };

    ghost asked = { λ shelf. shelf.asked };

    fn read_whole(&mut self, name: &str, cap: u64, into: &mut Vec<u8>) -> Result<(), ShelfFault>
        ensures ok { OnOk result
            (IfSome (content_of self.old.files name.now) (λ bytes. into.new.items ≡ bytes)) }
        ensures within_cap { OnOk result
            (IfSome (content_of self.old.files name.now) (λ bytes. length bytes ≤ cap)) }
        ensures read_within { OnOk result (length into.new.items ≤ cap) }
        ensures longer { IsErrOf result ShelfFault.Longer
            → IfSome (content_of self.old.files name.now) (λ bytes. cap < length bytes) }
        ensures err { OnErr result (into.new.items ≡ []) }
        ensures kept { (other : List ℕ)
            → content_of self.new.files other ≡ content_of self.old.files other }
        ensures asks { AsksFor self.old.asked self.new.asked (name.now ∷ []) }
        ensures cause { CountsFaults self.old.faults self.new.faults (is_failed result) }

        ensures fails { IsErrOf result ShelfFault.Failed ↔ IsTrue (shelf_fails self.old name.now) }
        ensures too_long { IsErrOf result ShelfFault.Longer
            ↔ (IsFalse (shelf_fails self.old name.now)
            × IfSome (content_of self.old.files name.now) (λ bytes. cap < length bytes)) }
        ensures after { self.new ≡ shelf_after self.old name.now self.new.asked }
    {
        into.clear();
        self.asked.add(name.as_bytes());
        self.calls = self.calls.saturating_add(1);
        let listed = self.failing.contains(&self.calls);
        match self.files.find(name) {
            Some(content) if !listed => copy_within(content, cap, into),
            _ => {
                self.faults = self.faults.saturating_add(1);
                Err(ShelfFault::Failed)
            }
        }
    }
}
