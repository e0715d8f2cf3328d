//! A file of a shelf, as it is read.

ghost use Rattle.std.specs.Prelude.{◌≡◌, ◌≤◌, ◌↔◌, ℕ, List, [], ◌∷◌, length, IfOk, IfErr, IfSome, IsTrue};
ghost use Rattle.grid_out.specs.Faults.{CountsFaults};
ghost use Rattle.grid_out.specs.Shelf.{AsksFor};
ghost use Rattle.room_base.specs.Base.{base_limit};
ghost use Rattle.room_base.specs.Files.{IsFileName, RefusesFiles};
ghost use Rattle.room_base.specs.Refusal.{IfRefusal, is_failed_read};

use crate::refusal::{Failure, Refusal};
use grid_out::Shelf;
use std::alloc::Global;

/// The most bytes that a file may have.
const BASE_LIMIT: u64 = 268_435_456;

/// The bytes of a file, or why they are not read: `ReadFault` where the shelf failed, and the limit where they are more than a base
/// may have. Memory may not suffice.
pub fn read_file<F: Shelf>(
    alloc: Global,
    name: &str,
    shelf: &mut F,
) -> Result<Vec<u8>, Failure<Refusal>>
    ensures content { IfOk result (λ bytes. IfSome (F.content shelf.old name.now) (λ b. bytes.items ≡ b)) }
    ensures fits { IfOk result (λ bytes. length bytes.items ≤ base_limit) }
    ensures refused { IfErr result (λ failure. IfRefusal failure (RefusesFiles (F.content shelf.old) (name.now ∷ []))) }
    ensures cause { CountsFaults (F.faults shelf.old) (F.faults shelf.new) (is_failed_read result) }
    ensures asks { AsksFor (F.asked shelf.old) (F.asked shelf.new) (name.now ∷ []) }
    ensures kept { (other : List ℕ) → F.content shelf.new other ≡ F.content shelf.old other }
{
    let mut bytes = Vec::new(alloc);
    match shelf.read_whole(name, BASE_LIMIT, &mut bytes) {
        Ok(()) => Ok(bytes),
        Err(fault) => Err(Failure::from(fault)),
    }
}

/// Whether a word of the command line names a file: it is not empty and does not begin with `-`.
pub fn is_file_name(word: &str) -> bool
    ensures { IsTrue result ↔ IsFileName word.now }
{
    match word.as_bytes() {
        [] => false,
        [first, ..] => *first != b'-',
    }
}
