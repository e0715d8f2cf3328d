//! The trait by which named content is read, and how a read may end.

ghost use Rattle.std.specs.Prelude.{◌≡◌, ℕ, ◌≤◌, ◌<◌, ◌↔◌, List, [], ◌∷◌, length, Option, IfSome, OnOk, OnErr, IsErrOf, false};
ghost use Rattle.grid_out.specs.Faults.{CountsFaults};
ghost use Rattle.grid_out.specs.Shelf.{AsksFor, is_failed};
ghost use Rattle.grid_out.specs.declared.shelf.ShelfFault.TheVariants.{NoMemory as no_memory};

use crate::failure::NoMemory;
use thiserror::Error;

/// Why a read gave no content.
#[derive(Clone, Copy, Debug, PartialEq, Eq, Error)]
pub enum ShelfFault {
    /// The outside failed.
    #[error("the outside failed")]
    Failed,
    /// The content is longer than the caller's cap.
    #[error("longer than the cap")]
    Longer,
    /// There was no memory to hold the content.
    #[error("no memory left")]
    NoMemory,
}

impl From<NoMemory> for ShelfFault {
    ghost from_gives = { λ _ fault. fault ≡ no_memory };

    fn from(_error: NoMemory) -> ShelfFault {
        ShelfFault::NoMemory
    }
}

/// Named content, read whole. A shelf need not tell beforehand what it holds, as a folder of files does not.
pub trait Shelf {
    // How many faults there were.
    ghost faults: { Self → ℕ };

    // What the shelf tells of a name, where it tells anything.
    ghost content: { Self → List ℕ → Option (List ℕ) };

    // The names that it was asked for so far, where it tells them.
    ghost asked: { Self → Option (List (List ℕ)) };

    /// Reads the content of `name` into `into`, whose old content is dropped first.
    /// Content of more than `cap` bytes is `Longer`.
    fn read_whole(&mut self, name: &str, cap: u64, into: &mut Vec<u8>) -> Result<(), ShelfFault>
        ensures ok { OnOk result
            (IfSome (content self.old name.now) (λ bytes. into.new.items ≡ bytes)) }
        ensures within_cap { OnOk result
            (IfSome (content self.old name.now) (λ bytes. length bytes ≤ cap)) }
        ensures read_within { OnOk result (length into.new.items ≤ cap) }
        ensures longer { IsErrOf result ShelfFault.Longer
            → IfSome (content self.old name.now) (λ bytes. cap < length bytes) }
        ensures err { OnErr result (into.new.items ≡ []) }
        ensures kept { (other : List ℕ) → content self.new other ≡ content self.old other }
        ensures asks { AsksFor (asked self.old) (asked self.new) (name.now ∷ []) }
        ensures cause { CountsFaults (faults self.old) (faults self.new) (is_failed result) };
}

/// Copies a content of at most `cap` bytes into `into`, in place of what stood there.
pub(crate) fn copy_within(content: &[u8], cap: u64, into: &mut Vec<u8>) -> Result<(), ShelfFault>
    ensures ok { OnOk result (into.new.items ≡ content.now) }
    ensures within_cap { OnOk result (length content.now ≤ cap) }
    ensures longer { IsErrOf result ShelfFault.Longer ↔ (cap < length content.now) }
    ensures err { OnErr result (into.new.items ≡ []) }
    ensures no_fault { is_failed result ≡ false }
{
    into.clear();
    if content.len() as u64 > cap {
        return Err(ShelfFault::Longer);
    }
    into.extend_from_slice(content)?;
    Ok(())
}
