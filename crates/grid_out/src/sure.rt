//! A shelf and a sink that never fail: over them a program has no fault to answer.

ghost use Rattle.std.specs.Prelude.{◌≡◌, ℕ, ◌≤◌, ◌<◌, ◌↔◌, List, [], ◌∷◌, length, Some, None, OnOk, OnErr, IsErrOf};
ghost use Rattle.grid_out.specs.Faults.{CountsFaults};
ghost use Rattle.grid_out.specs.Shelf.{AsksFor, is_failed, content_or_empty};

use crate::failure::Failed;
use crate::file_list::Files;
use crate::notes::Notes;
use crate::shelf::{Shelf, ShelfFault, copy_within};
use crate::sink::Sink;
use std::marker::Model;

/// A shelf that never fails. A name that it lacks reads as an empty content.
#[derive(Drop)]
pub struct SureShelf {
    files: Files,
    asked: Notes,
}

impl Model for SureShelf {
    ghost use Rattle.grid_out.specs.Shelf.{SureState};

    ghost Value = { SureState };

    ghost view = { λ shelf. record { files = shelf.files; asked = shelf.asked } };
}

impl SureShelf {
    /// A shelf of these files.
    pub fn new(files: Files) -> SureShelf
        ensures { result ≡ record { files = files; asked = Some [] } }
    {
        let asked = Notes::new(files.alloc());
        SureShelf { files, asked }
    }

    /// The names that it was asked for.
    pub fn asked(&self) -> &Notes
        ensures { result.now ≡ self.now.asked }
    {
        &self.asked
    }
}

impl Shelf for SureShelf {
    ghost faults = { λ _. 0 };

    ghost content = { λ shelf name. Some (content_or_empty shelf.files name) };

    ghost asked = { λ shelf. shelf.asked };

    fn read_whole(&mut self, name: &str, cap: u64, into: &mut Vec<u8>) -> Result<(), ShelfFault>
        ensures ok { OnOk result (into.new.items ≡ content_or_empty self.old.files name.now) }
        ensures within_cap { OnOk result (length (content_or_empty self.old.files name.now) ≤ cap) }
        ensures read_within { OnOk result (length into.new.items ≤ cap) }
        ensures longer { IsErrOf result ShelfFault.Longer
            ↔ (cap < length (content_or_empty self.old.files name.now)) }
        ensures err { OnErr result (into.new.items ≡ []) }
        ensures kept { self.new.files ≡ self.old.files }
        ensures asks { AsksFor self.old.asked self.new.asked (name.now ∷ []) }
        ensures cause { CountsFaults 0 0 (is_failed result) }
    {
        self.asked.add(name.as_bytes());
        let content = self.files.find(name).unwrap_or(&[]);
        copy_within(content, cap, into)
    }
}

/// A sink that never fails, and keeps nothing of what is written.
#[derive(Drop)]
pub struct SureSink;

impl SureSink {
    /// A sink that takes whatever comes.
    pub fn new() -> SureSink {
        SureSink
    }
}

impl Sink for SureSink {
    ghost faults = { λ _. 0 };

    ghost written = { λ _. None };

    ghost handed = { λ _. None };

    fn write_all(&mut self, _piece: &[u8]) -> Result<(), Failed> {
        Ok(())
    }
}
