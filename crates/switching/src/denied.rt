//! Why an act makes no overlay.

use cim_words::NoMemory;
use room_words::ActRefusal;
use thiserror::Error;

/// Why an act makes no overlay.
#[derive(Clone, Copy, Debug, PartialEq, Eq, Error)]
pub enum ActDenied {
    /// The act is refused.
    #[error("the act is refused")]
    Refusal(ActRefusal),
    /// Memory did not suffice.
    #[error("out of memory")]
    NoMemory,
}

impl From<NoMemory> for ActDenied {
    ghost use Rattle.std.specs.Prelude.{◌≡◌};
    ghost use Rattle.switching.specs.declared.denied.ActDenied.TheVariants.{NoMemory as no_memory};

    ghost from_gives = { λ _ denied. denied ≡ no_memory };

    fn from(_error: NoMemory) -> ActDenied {
        ActDenied::NoMemory
    }
}
