//! Why a set is not made.

use cim_words::NoMemory;
use thiserror::Error;

/// Why a set of statements is not made.
#[derive(Clone, Copy, Debug, PartialEq, Eq, Error)]
pub enum SetRefusal {
    /// It would have so many statements, more than a set may have.
    #[error("{0} statements are too many")]
    TooMany(u64),
    /// Memory did not suffice.
    #[error("no memory")]
    NoMemory,
}

impl From<NoMemory> for SetRefusal {
    ghost use Rattle.std.specs.Prelude.{◌≡◌};
    ghost use Rattle.statement_set.specs.declared.refusal.SetRefusal.TheVariants.{NoMemory as no_memory};

    ghost from_gives = { λ _ refusal. refusal ≡ no_memory };

    fn from(_error: NoMemory) -> SetRefusal {
        SetRefusal::NoMemory
    }
}
