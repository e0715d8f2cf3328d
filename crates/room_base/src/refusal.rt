//! Why there is no answer.

use cim_words::{Id, NoMemory};
use grid_out::ShelfFault;
use nt_text::{LineRefusal, NtFault};
use statement_set::SetRefusal;

/// Why bytes are no base.
#[derive(Clone, Copy, Debug, PartialEq, Eq)]
pub enum BaseRefusal {
    /// They are more bytes or more different statements than this program takes.
    Limit,
    /// A line of them, counted from 1, is refused.
    Document {
        /// The line's number.
        line: u32,
        /// Why it is refused.
        why: LineRefusal,
    },
    /// A subject of them breaks a rule of the profile.
    Profile {
        /// The rule's number.
        rule: u8,
        /// The subject.
        subject: Id,
    },
}

/// Why a task tells nothing of a base.
#[derive(Clone, Copy, Debug, PartialEq, Eq)]
pub enum TaskRefusal {
    /// The source of a trace is no equipment of the base.
    Asked,
}

/// Why words have no answer.
#[derive(Clone, Copy, Debug, PartialEq, Eq)]
pub enum Refusal {
    /// They are no command.
    Usage,
    /// The number of doors is not that of the consoles.
    Doors,
    /// A file that they name could not be read.
    ReadFault,
    /// What they name is no base, or a file that they name is longer than a base may be.
    Base(BaseRefusal),
    /// They ask the base for what it does not tell.
    Task(TaskRefusal),
}

/// A refusal, or want of memory.
#[derive(Clone, Copy, Debug, PartialEq, Eq)]
pub enum Failure<R> {
    /// It was refused.
    Refusal(R),
    /// Memory did not suffice.
    NoMemory,
}

impl<R> From<NoMemory> for Failure<R> {
    ghost use Rattle.std.specs.Prelude.{◌≡◌};
    ghost use Rattle.room_base.specs.declared.refusal.Failure.TheVariants.{NoMemory as no_memory};

    ghost from_gives = { λ _ failure. failure ≡ no_memory };

    fn from(_error: NoMemory) -> Failure<R> {
        Failure::NoMemory
    }
}

impl From<ShelfFault> for Failure<Refusal> {
    ghost use Rattle.std.specs.Prelude.{◌≡◌};
    ghost use Rattle.room_base.specs.Refusal.{failure_of_read};

    ghost from_gives = { λ fault failure. failure ≡ failure_of_read fault };

    fn from(fault: ShelfFault) -> Failure<Refusal> {
        match fault {
            ShelfFault::Failed => Failure::Refusal(Refusal::ReadFault),
            ShelfFault::Longer => Failure::Refusal(Refusal::Base(BaseRefusal::Limit)),
            ShelfFault::NoMemory => Failure::NoMemory,
        }
    }
}

impl From<NtFault> for Failure<BaseRefusal> {
    ghost use Rattle.std.specs.Prelude.{◌≡◌};
    ghost use Rattle.room_base.specs.Refusal.{failure_of_lines};

    ghost from_gives = { λ fault failure. failure ≡ failure_of_lines fault };

    fn from(fault: NtFault) -> Failure<BaseRefusal> {
        match fault {
            NtFault::Line { line, why } => Failure::Refusal(BaseRefusal::Document { line, why }),
            NtFault::NoMemory => Failure::NoMemory,
        }
    }
}

impl From<SetRefusal> for Failure<BaseRefusal> {
    ghost use Rattle.std.specs.Prelude.{◌≡◌};
    ghost use Rattle.room_base.specs.Refusal.{failure_of_set};

    ghost from_gives = { λ refusal failure. failure ≡ failure_of_set refusal };

    fn from(refusal: SetRefusal) -> Failure<BaseRefusal> {
        match refusal {
            SetRefusal::TooMany(_) => Failure::Refusal(BaseRefusal::Limit),
            SetRefusal::NoMemory => Failure::NoMemory,
        }
    }
}

impl From<Failure<BaseRefusal>> for Failure<Refusal> {
    ghost use Rattle.std.specs.Prelude.{◌≡◌};
    ghost use Rattle.room_base.specs.Refusal.{mapped};
    ghost use Rattle.room_base.specs.declared.refusal.Refusal.TheVariants.{Base};

    ghost from_gives = { λ of_base failure. failure ≡ mapped Base of_base };

    fn from(of_base: Failure<BaseRefusal>) -> Failure<Refusal> {
        match of_base {
            Failure::Refusal(why) => Failure::Refusal(Refusal::Base(why)),
            Failure::NoMemory => Failure::NoMemory,
        }
    }
}

impl From<Failure<TaskRefusal>> for Failure<Refusal> {
    ghost use Rattle.std.specs.Prelude.{◌≡◌};
    ghost use Rattle.room_base.specs.Refusal.{mapped};
    ghost use Rattle.room_base.specs.declared.refusal.Refusal.TheVariants.{Task};

    ghost from_gives = { λ of_task failure. failure ≡ mapped Task of_task };

    fn from(of_task: Failure<TaskRefusal>) -> Failure<Refusal> {
        match of_task {
            Failure::Refusal(why) => Failure::Refusal(Refusal::Task(why)),
            Failure::NoMemory => Failure::NoMemory,
        }
    }
}
