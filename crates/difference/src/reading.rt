//! A document of a difference, read.

ghost use Rattle.std.specs.Prelude.{◌≡◌, ℕ, List, Err, IfOk};
ghost use Rattle.difference.specs.Document.{IsDocument};
ghost use Rattle.difference.specs.Faults.{IsFault};
ghost use Rattle.difference.specs.declared.fault.DiffFault.TheVariants.{Stage as stage};
ghost use Rattle.room_words.specs.Differences.{Changes};
ghost use Rattle.room_words.specs.declared.stage_fault.StageFault.{StageFault};

use crate::draft::{Draft, MOST_BYTES};
use crate::fault::DiffFault;
use nt_text::{Lines, lines_have_one_reading};
use room_words::{Difference, StageWord};
use std::alloc::Global;

/// Reads a document: its lines are triples of RDF 1.1 N-Triples under headings, which come in their order and each once at most.
pub fn read(alloc: Global, text: &[u8]) -> Result<Difference, DiffFault>
    ensures ok { IfOk result (IsDocument text.now) }
    ensures fault { (f : StageFault) → result ≡ Err (stage f) → IsFault text.now f }
{
    if text.len() > MOST_BYTES {
        return Err(DiffFault::of_line(0, StageWord::TooLong));
    }
    let mut draft = Draft::new(alloc);
    let mut number = 0;
    for line in Lines::of(text) {
        number += 1;
        draft.take_line(number, line)?;
    }
    draft.finish(number)
}

/// A document reads in one way: it says one difference, or it has one fault.
pub fn documents_have_one_reading()
    ensures differences { (bytes : List ℕ) (d e : Changes) → IsDocument bytes d → IsDocument bytes e → d ≡ e }
    ensures faults { (bytes : List ℕ) (f g : StageFault) → IsFault bytes f → IsFault bytes g → f ≡ g }
    ensures either { (bytes : List ℕ) (d : Changes) (f : StageFault) → IsDocument bytes d → IsFault bytes f → ⊥ }
{
    lines_have_one_reading();
}
