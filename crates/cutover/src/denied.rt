//! Why a difference makes no model.

use cim_words::NoMemory;
use room_words::DiffRefusal;
use statement_set::SetRefusal;
use thiserror::Error;

/// Why a difference makes no model.
#[derive(Clone, Copy, Debug, PartialEq, Eq, Error)]
pub enum DiffDenied {
    /// The difference is refused.
    #[error("the difference is refused")]
    Refusal(DiffRefusal),
    /// Memory did not suffice.
    #[error("out of memory")]
    NoMemory,
}

impl From<NoMemory> for DiffDenied {
    ghost use Rattle.std.specs.Prelude.{◌≡◌};
    ghost use Rattle.cutover.specs.declared.denied.DiffDenied.TheVariants.{NoMemory as no_memory};

    ghost from_gives = { λ _ denied. denied ≡ no_memory };

    fn from(_error: NoMemory) -> DiffDenied {
        DiffDenied::NoMemory
    }
}

impl From<SetRefusal> for DiffDenied {
    ghost use Rattle.std.specs.Prelude.{◌≡◌};
    ghost use Rattle.cutover.specs.Denied.{denied_of_set};

    ghost from_gives = { λ refusal denied. denied ≡ denied_of_set refusal };

    fn from(refusal: SetRefusal) -> DiffDenied {
        match refusal {
            SetRefusal::TooMany(count) => DiffDenied::Refusal(DiffRefusal::TooMany(count)),
            SetRefusal::NoMemory => DiffDenied::NoMemory,
        }
    }
}
