//! The files that the words name, as they are read.

ghost use Rattle.std.specs.Prelude.{◌≡◌, ◌≤◌, ◌⊎◌, ℕ, List, [], ◌∷◌, length, option_map, option_to_list, IfOk, IfErr, IfSome, OnOk, OnErr};
ghost use Rattle.grid_out.specs.Faults.{CountsFaults};
ghost use Rattle.grid_out.specs.Shelf.{AsksFor};
ghost use Rattle.room_base.specs.Base.{base_limit};
ghost use Rattle.room_base.specs.Files.{AreContents, RefusesFiles};
ghost use Rattle.room_base.specs.Refusal.{IfRefusal, is_failed_read};
ghost use Rattle.room_plain.specs.Command.{further_names};
ghost use Rattle.room_plain.specs.Contents.{further_contents};

use crate::command::Asked;
use grid_out::Shelf;
use room_base::{Failure, Refusal, read_file};
use std::alloc::Global;

/// What the files contain that a command names.
#[derive(Drop)]
pub(crate) struct Contents {
    /// The bytes of the base.
    pub(crate) base: Vec<u8>,
    /// The bytes of the further file, where the command names one.
    pub(crate) script: Option<Vec<u8>>,
}

/// Reads the files that are asked for, the base first and each once. Nothing is read after a read that was refused.
pub(crate) fn read_files<F: Shelf>(
    alloc: Global,
    asked: Asked<'_>,
    shelf: &mut F,
) -> Result<Contents, Failure<Refusal>>
    ensures base { IfOk result (λ contents. IfSome (F.content shelf.old asked.entry.base.now) (λ b. contents.base.items ≡ b)) }
    ensures fits { IfOk result (λ contents. length contents.base.items ≤ base_limit) }
    ensures further { IfOk result (λ contents. AreContents (F.content shelf.old) (further_names asked.entry) (further_contents contents)) }
    ensures refused { IfErr result (λ failure. IfRefusal failure (RefusesFiles (F.content shelf.old) (asked.entry.base.now ∷ further_names asked.entry))) }
    ensures cause { CountsFaults (F.faults shelf.old) (F.faults shelf.new) (is_failed_read result) }
    ensures asks { OnOk result (AsksFor (F.asked shelf.old) (F.asked shelf.new) (asked.entry.base.now ∷ further_names asked.entry)) }
    ensures asks_err { OnErr result (AsksFor (F.asked shelf.old) (F.asked shelf.new) (asked.entry.base.now ∷ further_names asked.entry)
        ⊎ AsksFor (F.asked shelf.old) (F.asked shelf.new) (asked.entry.base.now ∷ [])) }
    ensures kept { (name : List ℕ) → F.content shelf.new name ≡ F.content shelf.old name }
{
    let base = read_file(alloc, asked.base, shelf)?;
    let script = read_further(alloc, asked.script, shelf)?;
    Ok(Contents { base, script })
}

/// Reads a further file, where there is one.
fn read_further<F: Shelf>(
    alloc: Global,
    name: Option<&str>,
    shelf: &mut F,
) -> Result<Option<Vec<u8>>, Failure<Refusal>>
    ensures contents { IfOk result (λ read. AreContents (F.content shelf.old) (option_to_list (option_map (λ s. s.now) name.entry)) (option_to_list (option_map (λ v. v.items) read))) }
    ensures refused { IfErr result (λ failure. IfRefusal failure (RefusesFiles (F.content shelf.old) (option_to_list (option_map (λ s. s.now) name.entry)))) }
    ensures cause { CountsFaults (F.faults shelf.old) (F.faults shelf.new) (is_failed_read result) }
    ensures asks { AsksFor (F.asked shelf.old) (F.asked shelf.new) (option_to_list (option_map (λ s. s.now) name.entry)) }
    ensures kept { (other : List ℕ) → F.content shelf.new other ≡ F.content shelf.old other }
{
    match name {
        None => Ok(None),
        Some(name) => Ok(Some(read_file(alloc, name, shelf)?)),
    }
}
