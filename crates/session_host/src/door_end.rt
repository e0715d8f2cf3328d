//! How the sessions of a door ended.

ghost use Rattle.std.specs.Prelude.{◌≡◌, ◌+◌, ◌<◌, ◌^◌, List, [], ◌∷◌, ◌++◌, length, false};
ghost use Rattle.line_serve.specs.declared.serving.LinesEnd.{LinesEnd as End};
ghost use Rattle.session_host.specs.Doors.{CountsEnds};

use line_serve::LinesEnd;

/// How many sessions of a door ended in each way, and whether the door failed.
#[derive(Clone, Copy, Debug, PartialEq, Eq, Drop)]
pub struct DoorEnd {
    /// All sessions.
    pub sessions: u32,
    /// Those that the peer ended by `bye`.
    pub bye: u32,
    /// Those whose input ended.
    pub ended: u32,
    /// Those that ended by a fault of reading.
    pub read_fault: u32,
    /// Those that ended by a fault of writing.
    pub write_fault: u32,
    /// Those that ended by a line of more than 8,192 bytes.
    pub long_line: u32,
    /// Those that ended since 1,073,741,824 bytes were read.
    pub spent: u32,
    /// Whether the door failed, after which it was asked no more.
    pub failed: bool,
}

impl DoorEnd {
    /// Before the first session.
    pub fn new() -> DoorEnd
        ensures counts { CountsEnds result [] }
        ensures failed { result.failed ≡ false }
    {
        DoorEnd {
            sessions: 0,
            bye: 0,
            ended: 0,
            read_fault: 0,
            write_fault: 0,
            long_line: 0,
            spent: 0,
            failed: false,
        }
    }

    /// The counts with one more session. A count stands still at the end of its type, which no door's sessions reach.
    pub(crate) fn with(self, ended: LinesEnd) -> DoorEnd
        ensures counts { (ends : List End) → CountsEnds self ends → length ends + 1 < 2 ^ 32 → CountsEnds result (ends ++ ended ∷ []) }
        ensures failed { result.failed ≡ self.failed }
    {
        let sessions = self.sessions.saturating_add(1);
        match ended {
            LinesEnd::Bye => DoorEnd {
                sessions,
                bye: self.bye.saturating_add(1),
                ..self
            },
            LinesEnd::Ended => DoorEnd {
                sessions,
                ended: self.ended.saturating_add(1),
                ..self
            },
            LinesEnd::ReadFault => DoorEnd {
                sessions,
                read_fault: self.read_fault.saturating_add(1),
                ..self
            },
            LinesEnd::WriteFault => DoorEnd {
                sessions,
                write_fault: self.write_fault.saturating_add(1),
                ..self
            },
            LinesEnd::LongLine => DoorEnd {
                sessions,
                long_line: self.long_line.saturating_add(1),
                ..self
            },
            LinesEnd::Spent => DoorEnd {
                sessions,
                spent: self.spent.saturating_add(1),
                ..self
            },
        }
    }
}
