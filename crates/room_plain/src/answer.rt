//! What the program answers to its words.

ghost use Rattle.std.specs.Prelude.{◌≡◌, ℕ, List, map, string_bytes, IfOk, IfErr, OnErr};
ghost use Rattle.grid_out.specs.Faults.{CountsFaults};
ghost use Rattle.grid_out.specs.Shelf.{AsksFor};
ghost use Rattle.room_base.specs.Refusal.{IfRefusal};
ghost use Rattle.room_plain.specs.Ending.{IsSaid, ending};
ghost use Rattle.room_base.specs.Status.{is_read_fault};
ghost use Rattle.room_plain.specs.Run.{AreNames, Explains};
ghost use Rattle.history_writer.specs.Sending.{output};

use crate::command::command;
use crate::commands::perform;
use crate::files::read_files;
use grid_out::{Shelf, Sink};
use room_base::{Failure, Refusal, Status};
use std::alloc::Global;

/// Writes what the words ask for, or tells why there is nothing to write.
pub(crate) fn answer<F: Shelf, K: Sink>(
    alloc: Global,
    words: &[String],
    shelf: &mut F,
    out: &mut K,
) -> Result<Status, Failure<Refusal>>
    ensures said { IfOk result (λ status. IsSaid (F.content shelf.old) (map string_bytes words.now) status
        (output (K.written out.old) (K.faults out.old) (K.handed out.old)) (output (K.written out.new) (K.faults out.new) (K.handed out.new))) }
    ensures refusal { IfErr result (λ failure. IfRefusal failure (Explains (F.content shelf.old) (map string_bytes words.now))) }
    ensures untouched { OnErr result (output (K.written out.new) (K.faults out.new) (K.handed out.new) ≡ output (K.written out.old) (K.faults out.old) (K.handed out.old)) }
    ensures cause { CountsFaults (F.faults shelf.old) (F.faults shelf.new) (is_read_fault (ending result)) }
    ensures asks { (names : List (List ℕ)) × AreNames (map string_bytes words.now) (ending result) names × AsksFor (F.asked shelf.old) (F.asked shelf.new) names }
    ensures kept { (name : List ℕ) → F.content shelf.new name ≡ F.content shelf.old name }
{
    let Some(asked) = command(words) else {
        return Err(Failure::Refusal(Refusal::Usage));
    };
    let contents = read_files(alloc, asked, shelf)?;
    perform(alloc, contents, asked.task, out)
}
