//! Why a text did not reach the output whole.

use cim_words::NoMemory;
use grid_out::Failed;
use thiserror::Error;

/// Why a text did not reach the output whole.
#[derive(Clone, Copy, Debug, PartialEq, Eq, Error)]
pub enum OutFault {
    /// The output could not be written.
    #[error("the output could not be written")]
    WriteFault,
    /// Memory did not suffice.
    #[error("out of memory")]
    NoMemory,
}

impl From<NoMemory> for OutFault {
    ghost use Rattle.std.specs.Prelude.{◌≡◌};
    ghost use Rattle.history_writer.specs.declared.fault.OutFault.TheVariants.{NoMemory as no_memory};

    ghost from_gives = { λ _ fault. fault ≡ no_memory };

    fn from(_error: NoMemory) -> OutFault {
        OutFault::NoMemory
    }
}

impl From<Failed> for OutFault {
    ghost use Rattle.std.specs.Prelude.{◌≡◌};
    ghost use Rattle.history_writer.specs.declared.fault.OutFault.TheVariants.{WriteFault as write_fault};

    ghost from_gives = { λ _ fault. fault ≡ write_fault };

    fn from(_error: Failed) -> OutFault {
        OutFault::WriteFault
    }
}
