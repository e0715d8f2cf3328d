//! Lines, and the requests that they are or what is wrong with them.

use cim_words::{Id, Length, NoMemory, PhaseSet};
use room_words::{Act, Anchor, Fault};
use std::alloc::Global;
use std::test::Fail;
use wire::{Request, read_request};

/// The identifiers of the tables, each named by its last two hexadecimal digits, as the tables write it after `~`.
pub(crate) const ID_51: Id = Id {
    number: 0x0000_0000_0000_4000_8000_0000_0000_0051,
};

pub(crate) const ID_91: Id = Id {
    number: 0x0000_0000_0000_4000_8000_0000_0000_0091,
};

pub(crate) const ID_92: Id = Id {
    number: 0x0000_0000_0000_4000_8000_0000_0000_0092,
};

pub(crate) const ID_93: Id = Id {
    number: 0x0000_0000_0000_4000_8000_0000_0000_0093,
};

pub(crate) const ID_96: Id = Id {
    number: 0x0000_0000_0000_4000_8000_0000_0000_0096,
};

pub(crate) const ID_97: Id = Id {
    number: 0x0000_0000_0000_4000_8000_0000_0000_0097,
};

pub(crate) const ID_A6: Id = Id {
    number: 0x0000_0000_0000_4000_8000_0000_0000_00A6,
};

pub(crate) const ID_B1: Id = Id {
    number: 0x0000_0000_0000_4000_8000_0000_0000_00B1,
};

pub(crate) const ID_E1: Id = Id {
    number: 0x0000_0000_0000_4000_8000_0000_0000_00E1,
};

pub(crate) const ID_FF: Id = Id {
    number: 0x0000_0000_0000_4000_8000_0000_0000_00FF,
};

/// A text with each `~` written out as the front of an identifier.
pub(crate) fn full(alloc: Global, short: &str) -> Result<String, NoMemory> {
    short.replace(alloc, "~", "00000000-0000-4000-8000-0000000000")
}

/// The phases A and B.
pub(crate) const AB: PhaseSet = PhaseSet {
    c: false,
    ..PhaseSet::ABC
};

/// Lines of a session, and what they are.
const LINES: &[(&str, Result<Request, Fault>)] = &[
    ("open ~b1", Ok(Request::Act(Act::OpenSwitch(ID_B1)))),
    ("close ~B1", Ok(Request::Act(Act::CloseSwitch(ID_B1)))),
    ("release ~b1", Ok(Request::Act(Act::Release(ID_B1)))),
    ("remove ~92", Ok(Request::Act(Act::Remove(ID_92)))),
    (
        "cut ~92 ~51 60000",
        Ok(Request::Act(Act::Cut {
            new_id: ID_92,
            segment: ID_51,
            length: Length { mm: 60_000 },
        })),
    ),
    (
        "clamp ~91 ~51 0",
        Ok(Request::Act(Act::Clamp {
            new_id: ID_91,
            segment: ID_51,
            length: Length { mm: 0 },
        })),
    ),
    (
        "clamp ~91 ~51 9999999999999",
        Ok(Request::Act(Act::Clamp {
            new_id: ID_91,
            segment: ID_51,
            length: Length {
                mm: 9_999_999_999_999,
            },
        })),
    ),
    (
        "jumper ~96 s:~92:2 n:~a6 AB",
        Ok(Request::Act(Act::Jumper {
            new_id: ID_96,
            first: Anchor::Side(ID_92, 2),
            second: Anchor::Node(ID_A6),
            phases: AB,
        })),
    ),
    (
        "ground ~97 s:~92:1 -",
        Ok(Request::Act(Act::Ground {
            new_id: ID_97,
            at: Anchor::Side(ID_92, 1),
            phases: PhaseSet::EMPTY,
        })),
    ),
    (
        "trace ~e1 ABC",
        Ok(Request::Trace {
            start: ID_E1,
            phases: PhaseSet::ABC,
        }),
    ),
    ("look", Ok(Request::Look(None))),
    ("stage", Ok(Request::Stage)),
    ("cutover", Ok(Request::Cutover)),
    ("bye", Ok(Request::Bye)),
    ("", Err(Fault::Word)),
    (" open ~b1", Err(Fault::Word)),
    ("opn x", Err(Fault::Word)),
    ("opens ~b1", Err(Fault::Word)),
    ("OPEN ~b1", Err(Fault::Word)),
    ("open\t~b1", Err(Fault::Word)),
    ("open", Err(Fault::Count)),
    ("open  ~b1", Err(Fault::Count)),
    ("open ~b1 ", Err(Fault::Count)),
    ("look 1", Err(Fault::Count)),
    ("stage x", Err(Fault::Count)),
    ("jumper x n:~a6 AB", Err(Fault::Count)),
    ("open x", Err(Fault::Field(1))),
    ("open ", Err(Fault::Field(1))),
    ("open {~b1}", Err(Fault::Field(1))),
    ("cut x y z", Err(Fault::Field(1))),
    ("cut ~92 y z", Err(Fault::Field(2))),
    ("cut ~92 ~51 ", Err(Fault::Field(3))),
    ("cut ~92 ~51 01", Err(Fault::Field(3))),
    ("cut ~92 ~51 00", Err(Fault::Field(3))),
    ("cut ~92 ~51 +1", Err(Fault::Field(3))),
    ("cut ~92 ~51 -1", Err(Fault::Field(3))),
    ("cut ~92 ~51 1.0", Err(Fault::Field(3))),
    ("cut ~92 ~51 10000000000000", Err(Fault::Field(3))),
    ("jumper ~96 s:~92:3 n:~a6 AB", Err(Fault::Field(2))),
    ("jumper ~96 s:~92:01 n:~a6 AB", Err(Fault::Field(2))),
    ("jumper ~96 ~a6 n:~a6 AB", Err(Fault::Field(2))),
    ("jumper ~96 n:~a6 N:~a6 AB", Err(Fault::Field(3))),
    ("jumper ~96 n:~a6 n:~a6 BA", Err(Fault::Field(4))),
    ("trace ~e1 abc", Err(Fault::Field(2))),
];

/// Lines of a script, after the console, and what they are.
const SCRIPTED: &[(&str, Result<Request, Fault>)] = &[
    ("look", Ok(Request::Look(None))),
    ("look 0", Ok(Request::Look(Some(0)))),
    ("look 1048576", Ok(Request::Look(Some(1_048_576)))),
    ("look 1048577", Err(Fault::Field(1))),
    ("look 01", Err(Fault::Field(1))),
    ("look ", Err(Fault::Field(1))),
    ("look 1 2", Err(Fault::Count)),
    ("bye 1", Err(Fault::Count)),
];

#[test]
fn reads_requests(rt: HostRuntime) -> Result<(), Fail> {
    for (short, want) in LINES {
        let line = full(rt.alloc(), short)?;
        assert!(rt; read_request(line.as_bytes(), false) == *want, "{short}");
    }
    Ok(())
}

#[test]
fn reads_requests_of_scripts(rt: HostRuntime) {
    for (line, want) in SCRIPTED {
        assert!(rt; read_request(line.as_bytes(), true) == *want, "{line}");
    }
}

/// A word that is not UTF-8 is of no form; one that is not asked for does not count.
#[test]
fn reads_words_that_are_no_text(rt: HostRuntime) {
    assert!(rt; read_request(b"open \xFF", false) == Err(Fault::Field(1)));
    assert!(rt; read_request(b"\xFF", false) == Err(Fault::Word));
    assert!(rt; read_request(b"open \xFF \xFF", false) == Err(Fault::Count));
    assert!(rt; read_request(b"trace x \xFF", false) == Err(Fault::Field(1)));
}
