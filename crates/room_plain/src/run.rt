//! A run of the program, from its words to its output.

ghost use Rattle.std.specs.Prelude.{◌≡◌, ℕ, List, map, string_bytes};
ghost use Rattle.grid_out.specs.Faults.{CountsFaults};
ghost use Rattle.grid_out.specs.Shelf.{AsksFor};
ghost use Rattle.room_base.specs.Status.{is_read_fault};
ghost use Rattle.room_plain.specs.Run.{Answers, AreNames, IsHanded, Writes};

use crate::answer::answer;
use grid_out::{Shelf, Sink};
use room_base::{Failure, Status, refuse};
use std::alloc::Global;

/// Does what the words say, over named content and an output.
pub fn run_plain<F: Shelf, K: Sink>(
    alloc: Global,
    words: &[String],
    shelf: &mut F,
    out: &mut K,
) -> Status
    // The status and what was written follow from the words and from what the shelf told. The text is handed to the output once, or in
    // pieces as a script is played.
    ensures says { (text : List ℕ) × Answers (F.content shelf.old) (map string_bytes words.now) result text
        × Writes result (K.written out.old) (K.written out.new) (K.faults out.old) (K.faults out.new) text
        × IsHanded (map string_bytes words.now) result text (K.handed out.old) (K.handed out.new) }

    // The shelf was asked for the files that the words name, each once and in their order, and for nothing else.
    ensures asks { (names : List (List ℕ)) × AreNames (map string_bytes words.now) result names × AsksFor (F.asked shelf.old) (F.asked shelf.new) names }

    // A fault of the shelf is answered exactly where there was one in this call.
    ensures read_fault { CountsFaults (F.faults shelf.old) (F.faults shelf.new) (is_read_fault result) }
    ensures kept { (name : List ℕ) → F.content shelf.new name ≡ F.content shelf.old name }
{
    match answer(alloc, words, shelf, out) {
        Ok(status) => status,
        Err(Failure::Refusal(refusal)) => refuse(alloc, refusal, out),
        Err(Failure::NoMemory) => Status::NoMemory,
    }
}
