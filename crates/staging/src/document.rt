//! A document that is being staged.

ghost use Rattle.std.specs.Prelude.{◌≡◌, [], Some, Err, IfOk, OnOk, OnErr};
ghost use Rattle.std.specs.List.{list_all};
ghost use Rattle.difference.specs.declared.fault.DiffFault.TheVariants.{Stage as stage};
ghost use Rattle.nt_text.specs.Grammar.{is_blank};
ghost use Rattle.room_words.specs.declared.stage_fault.StageFault.{StageFault};
ghost use Rattle.staging.specs.Documents.{HasFault, Says, closes, more_kept};

use cim_words::NoMemory;
use difference::{DiffFault, read};
use room_words::{Difference, StageFault, StageWord};
use std::alloc::Global;
use std::marker::Model;

/// The most bytes that a document may have.
const MOST_BYTES: usize = 67_108_864;

/// A document as far as its lines have come. The bytes of one that is too long are dropped.
#[derive(Drop)]
pub struct Document {
    text: Vec<u8>,
    is_too_long: bool,
}

impl Model for Document {
    ghost use Rattle.std.specs.Prelude.{ℕ, ◌≤◌, List, Option, None, Some, length, if◌then◌else◌};
    ghost use Rattle.room_words.specs.Differences.{most_bytes};

    ghost Value = { Option (List ℕ) };

    ghost view = { λ d. if d.is_too_long then None else Some d.text.items };

    // No more is kept than a document may have.
    ghost invariant = { λ d. length d.text.items ≤ most_bytes };
}

impl Document {
    /// A document before its first line.
    pub fn new(alloc: Global) -> Document
        ensures { result ≡ Some [] }
    {
        Document {
            text: Vec::new(alloc),
            is_too_long: false,
        }
    }

    /// Takes one more line, with a line feed as its end. After want of memory the document is as it was.
    pub fn add(&mut self, line: &[u8]) -> Result<(), NoMemory>
        ensures ok { OnOk result (self.new ≡ more_kept self.old line.now) }
        ensures refused { OnErr result (self.new ≡ self.old) }
    {
        if self.is_too_long {
            return Ok(());
        }
        if MOST_BYTES - self.text.len() <= line.len() {
            self.is_too_long = true;
            self.text = Vec::new(*self.text.allocator());
            return Ok(());
        }
        self.text.reserve(line.len() + 1)?;
        self.text.extend_from_slice(line).unwrap();
        self.text.push(b'\n').unwrap();
        Ok(())
    }

    /// The difference that it says.
    pub fn read(&self, alloc: Global) -> Result<Difference, DiffFault>
        ensures ok { IfOk result (Says self.now) }
        ensures fault { (bad : StageFault) → result ≡ Err (stage bad) → HasFault self.now bad }
    {
        if self.is_too_long {
            return Err(DiffFault::Stage(StageFault {
                line: 0,
                word: StageWord::TooLong,
            }));
        }
        read(alloc, &self.text)
    }
}

/// Whether a document ends with a line: the last heading, `%end`, stands there, with spaces and tabs after it at will.
#[tactic(auto, unfolding(crate::specs::Documents::closes))]
pub fn ends_document(line: &[u8]) -> bool
    ensures { result ≡ closes line.now }
{
    match line.strip_prefix(b"%end") {
        Some(gap) => is_gap(gap),
        None => false,
    }
}

/// Whether there are spaces and tabs alone.
fn is_gap(bytes: &[u8]) -> bool
    ensures { result ≡ list_all is_blank bytes.now }
{
    bytes.iter().all(|byte| matches!(byte, b' ' | b'\t'))
}
