//! How a run of the program ends.

ghost use Rattle.std.specs.Prelude.{◌≡◌};
ghost use Rattle.room_base.specs.Status.{status_code};

use crate::refusal::{BaseRefusal, Refusal, TaskRefusal};
use cim_words::Id;
use nt_text::LineRefusal;

/// How a run ends. A refusal is also told by a line on the output.
#[derive(Clone, Copy, Debug, PartialEq, Eq)]
pub enum Status {
    /// What was asked for was written.
    Ok,
    /// The words are no command.
    Usage,
    /// The number of doors is not that of the consoles.
    BadDoors,
    /// A file could not be read.
    ReadFault,
    /// A file has more bytes, or the base has more different statements, than this program takes.
    Limit,
    /// A line of the base, counted from 1, is refused.
    Document {
        /// The line's number.
        line: u32,
        /// Why it is refused.
        why: LineRefusal,
    },
    /// A subject of the base breaks a rule of the profile.
    Profile {
        /// The rule's number.
        rule: u8,
        /// The subject.
        subject: Id,
    },
    /// The source of a trace is no equipment of the base.
    Asked,
    /// The output could not be written.
    WriteFault,
    /// The door of this console failed. No line tells of it.
    DoorFault(u8),
    /// Memory did not suffice.
    NoMemory,
}

impl From<Refusal> for Status {
    ghost use Rattle.std.specs.Prelude.{◌≡◌};
    ghost use Rattle.room_base.specs.Status.{status_of};

    ghost from_gives = { λ refusal status. status ≡ status_of refusal };

    fn from(refusal: Refusal) -> Status {
        match refusal {
            Refusal::Usage => Status::Usage,
            Refusal::Doors => Status::BadDoors,
            Refusal::ReadFault => Status::ReadFault,
            Refusal::Base(BaseRefusal::Limit) => Status::Limit,
            Refusal::Base(BaseRefusal::Document { line, why }) => Status::Document { line, why },
            Refusal::Base(BaseRefusal::Profile { rule, subject }) => {
                Status::Profile { rule, subject }
            }
            Refusal::Task(TaskRefusal::Asked) => Status::Asked,
        }
    }
}

impl Status {
    /// The status with which the process exits.
    pub fn code(&self) -> u8
        ensures { result ≡ status_code self.now }
    {
        match self {
            Status::Ok => 0,
            Status::Usage | Status::BadDoors => 2,
            Status::ReadFault => 1,
            Status::Limit | Status::Document { .. } | Status::Profile { .. } => 3,
            Status::Asked => 4,
            Status::WriteFault => 5,
            Status::NoMemory => 6,
            Status::DoorFault(_) => 7,
        }
    }
}
