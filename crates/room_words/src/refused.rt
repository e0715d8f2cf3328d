//! Refusals of what a console submits.

use crate::act_refusal::ActRefusal;
use crate::diff_refusal::DiffRefusal;
use cim_words::NoMemory;
use thiserror::Error;

/// The history has no room for an event.
#[derive(Clone, Copy, Debug, PartialEq, Eq)]
pub struct LogFull {
    /// How many entries it has.
    pub entries: u32,
    /// How many bytes the written forms of its differences have together.
    pub bytes: u64,
}

/// Why an event is refused.
#[derive(Clone, Copy, Debug, PartialEq, Eq)]
pub enum Why {
    /// The switching order is refused.
    Act(ActRefusal),
    /// The change of the model is refused.
    Diff(DiffRefusal),
    /// The history is full.
    Log(LogFull),
}

/// The refusal of an event, judged on a prefix of the history.
#[derive(Clone, Copy, Debug, PartialEq, Eq)]
pub struct Refused {
    /// How many entries the prefix has.
    pub at: u32,
    /// Why the event is refused there.
    pub why: Why,
}

/// Why an event is not entered.
#[derive(Clone, Copy, Debug, PartialEq, Eq, Error)]
pub enum Denied {
    /// It is refused.
    #[error("the event is refused")]
    Refused(Refused),
    /// Memory did not suffice.
    #[error("out of memory")]
    NoMemory,
}

impl From<NoMemory> for Denied {
    ghost use Rattle.std.specs.Prelude.{◌≡◌};
    ghost use Rattle.room_words.specs.declared.refused.Denied.TheVariants.{NoMemory as no_memory};

    ghost from_gives = { λ _ denied. denied ≡ no_memory };

    fn from(_error: NoMemory) -> Denied {
        Denied::NoMemory
    }
}
