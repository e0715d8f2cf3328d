//! Why there is no reading of a document.

ghost use Rattle.std.specs.Prelude.{◌≡◌};
ghost use Rattle.difference.specs.declared.fault.DiffFault.TheVariants.{Stage as stage};

use cim_words::NoMemory;
use room_words::{StageFault, StageWord};
use thiserror::Error;

/// Why there is no reading of a document of a difference.
#[derive(Clone, Copy, Debug, PartialEq, Eq, Error)]
pub enum DiffFault {
    /// The document is refused.
    #[error("the document is refused")]
    Stage(StageFault),
    /// Memory did not suffice.
    #[error("out of memory")]
    NoMemory,
}

impl DiffFault {
    /// What is wrong with a line.
    pub(crate) fn of_line(line: u32, word: StageWord) -> DiffFault
        ensures { result ≡ stage (record { line = line; word = word }) }
    {
        DiffFault::Stage(StageFault { line, word })
    }
}

impl From<NoMemory> for DiffFault {
    ghost use Rattle.std.specs.Prelude.{◌≡◌};
    ghost use Rattle.difference.specs.declared.fault.DiffFault.TheVariants.{NoMemory as no_memory};

    ghost from_gives = { λ _ fault. fault ≡ no_memory };

    fn from(_error: NoMemory) -> DiffFault {
        DiffFault::NoMemory
    }
}
