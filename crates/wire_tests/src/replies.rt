//! Replies and entries, and the texts that are written for them.

use crate::requests::{AB, ID_51, ID_91, ID_92, ID_93, ID_96, ID_97, ID_A6, ID_B1, ID_FF, full};
use cim_words::{Length, NoMemory, PhaseSet};
use room_words::{
    Act, ActRefusal, Anchor, DiffRefusal, Entry, Event, Fault, LogFull, Refused, Reply, StageFault,
    StageWord, TraceRows, Why,
};
use std::alloc::Global;
use std::test::Fail;
use wire::{write_entry, write_reply};

/// Refusals on the prefix of two entries, and what is written for them.
const REFUSALS: &[(Why, &str)] = &[
    (Why::Act(ActRefusal::Unknown(ID_FF)), "no 2 Unknown ~ff\n"),
    (Why::Act(ActRefusal::Taken(ID_51)), "no 2 Taken ~51\n"),
    (Why::Act(ActRefusal::Kind(ID_B1)), "no 2 Kind ~b1\n"),
    (
        Why::Act(ActRefusal::Permanent(ID_B1)),
        "no 2 Permanent ~b1\n",
    ),
    (Why::Act(ActRefusal::Already), "no 2 Already\n"),
    (Why::Act(ActRefusal::NotHeld), "no 2 NotHeld\n"),
    (Why::Act(ActRefusal::Length), "no 2 Length\n"),
    (
        Why::Act(ActRefusal::SamePlace(ID_93)),
        "no 2 SamePlace ~93\n",
    ),
    (Why::Act(ActRefusal::NoAnchor(1)), "no 2 NoAnchor 1\n"),
    (Why::Act(ActRefusal::SameAnchor), "no 2 SameAnchor\n"),
    (Why::Act(ActRefusal::Phases), "no 2 Phases\n"),
    (Why::Act(ActRefusal::Crowded(ID_51)), "no 2 Crowded ~51\n"),
    (Why::Act(ActRefusal::InUse(ID_96)), "no 2 InUse ~96\n"),
    (Why::Act(ActRefusal::Full), "no 2 Full\n"),
    (
        Why::Diff(DiffRefusal::Precondition(2)),
        "no 2 Precondition 2\n",
    ),
    (Why::Diff(DiffRefusal::Reverse(1)), "no 2 Reverse 1\n"),
    (
        Why::Diff(DiffRefusal::TooMany(1_000_001)),
        "no 2 TooMany 1000001\n",
    ),
    (
        Why::Diff(DiffRefusal::Profile(8, ID_92)),
        "no 2 Profile 8 ~92\n",
    ),
    (Why::Diff(DiffRefusal::Place(ID_92)), "no 2 Place ~92\n"),
    (
        Why::Log(LogFull {
            entries: 1_048_576,
            bytes: 0,
        }),
        "no 2 LogFull 1048576 0\n",
    ),
];

/// Faults, and what is written for them.
const FAULTS: &[(Fault, &str)] = &[
    (Fault::Word, "fault Word\n"),
    (Fault::Count, "fault Count\n"),
    (Fault::Field(3), "fault Field 3\n"),
    (Fault::Staged, "fault Staged\n"),
    (Fault::Prefix, "fault Prefix\n"),
    (Fault::Console, "fault Console\n"),
    (Fault::Long, "fault Long\n"),
];

/// What is wrong with the third line of a staged document, and what is written for it.
const STAGE_FAULTS: &[(StageWord, &str)] = &[
    (StageWord::TooLong, "fault Stage 3 TooLong\n"),
    (StageWord::LineTooLong, "fault Stage 3 LineTooLong\n"),
    (StageWord::Utf8, "fault Stage 3 Utf8\n"),
    (StageWord::Blank, "fault Stage 3 Blank\n"),
    (StageWord::Syntax, "fault Stage 3 Syntax\n"),
    (StageWord::Subject, "fault Stage 3 Subject\n"),
    (StageWord::Wide, "fault Stage 3 Wide\n"),
    (StageWord::Heading, "fault Stage 3 Heading\n"),
    (StageWord::TooMany, "fault Stage 3 TooMany\n"),
    (StageWord::NoEnd, "fault Stage 3 NoEnd\n"),
];

/// Acts of console 2, each the seventh entry of the history and the third of the console, and what is written for the entry.
const ENTRIES: &[(Act, &str)] = &[
    (Act::OpenSwitch(ID_B1), "7 c2 3 open ~b1\n"),
    (Act::CloseSwitch(ID_B1), "7 c2 3 close ~b1\n"),
    (Act::Release(ID_B1), "7 c2 3 release ~b1\n"),
    (Act::Remove(ID_92), "7 c2 3 remove ~92\n"),
    (
        Act::Cut {
            new_id: ID_92,
            segment: ID_51,
            length: Length { mm: 60_000 },
        },
        "7 c2 3 cut ~92 ~51 60000\n",
    ),
    (
        Act::Clamp {
            new_id: ID_91,
            segment: ID_51,
            length: Length { mm: 0 },
        },
        "7 c2 3 clamp ~91 ~51 0\n",
    ),
    (
        Act::Jumper {
            new_id: ID_96,
            first: Anchor::Side(ID_92, 2),
            second: Anchor::Node(ID_A6),
            phases: AB,
        },
        "7 c2 3 jumper ~96 s:~92:2 n:~a6 AB\n",
    ),
    (
        Act::Ground {
            new_id: ID_97,
            at: Anchor::Node(ID_A6),
            phases: PhaseSet::ABC,
        },
        "7 c2 3 ground ~97 n:~a6 ABC\n",
    ),
];

/// Whether a text is written for a reply, behind what is there.
fn is_written(alloc: Global, reply: &Reply, short: &str) -> Result<bool, NoMemory> {
    let mut text = Vec::from_slice(alloc, b"00000000-0000-4000-8000-0000000000")?;
    write_reply(reply, &mut text)?;
    let want = full(alloc, ["~", short].concat(alloc)?.as_str())?;
    Ok(text.as_slice() == want.as_bytes())
}

/// Whether a text is written for the entry of an act.
fn is_entered(alloc: Global, act: Act, short: &str) -> Result<bool, NoMemory> {
    let entry = Entry {
        console: 2,
        serial: 3,
        event: Event::Act(act),
    };
    let mut text = Vec::new(alloc);
    write_entry(7, &entry, &mut text)?;
    let want = full(alloc, short)?;
    Ok(text.as_slice() == want.as_bytes())
}

#[test]
fn writes_refusals(rt: HostRuntime) -> Result<(), Fail> {
    for (why, want) in REFUSALS {
        let reply = Reply::No(Refused { at: 2, why: *why });
        assert!(rt; is_written(rt.alloc(), &reply, want)?, "{want}");
    }
    Ok(())
}

#[test]
fn writes_faults(rt: HostRuntime) -> Result<(), Fail> {
    for (fault, want) in FAULTS {
        assert!(rt;
            is_written(rt.alloc(), &Reply::Fault(*fault), want)?,
            "{want}"
        );
    }
    for (word, want) in STAGE_FAULTS {
        let bad = StageFault {
            line: 3,
            word: *word,
        };
        assert!(rt;
            is_written(rt.alloc(), &Reply::Fault(Fault::Stage(bad)), want)?,
            "{want}"
        );
    }
    Ok(())
}

#[test]
fn writes_other_replies(rt: HostRuntime) -> Result<(), Fail> {
    let alloc = rt.alloc();
    assert!(rt; is_written(alloc, &Reply::Ok(1), "ok 1\n")?);
    assert!(rt; is_written(alloc, &Reply::NoSuch(4), "no 4 NoSuch\n")?);
    assert!(rt; is_written(alloc, &Reply::Seen(0), "seen 0\n")?);
    let staged = Reply::Staged {
        pre: 0,
        rev: 10,
        fwd: 200_000,
    };
    assert!(rt; is_written(alloc, &staged, "staged 0 10 200000\n")?);
    assert!(rt; is_written(alloc, &Reply::Memory, "memory\n")?);
    assert!(rt; is_written(alloc, &Reply::Bye, "bye\n")?);
    Ok(())
}

#[test]
fn writes_traces(rt: HostRuntime) -> Result<(), Fail> {
    let alloc = rt.alloc();
    let rows = [(ID_51, AB), (ID_B1, PhaseSet::ABC)];
    let reply = Reply::Trace {
        at: 3,
        rows: TraceRows::of(Vec::from_slice(alloc, &rows)?),
    };
    assert!(rt; is_written(alloc, &reply, "trace 3 2\n~51 AB\n~b1 ABC\n")?);
    Ok(())
}

#[test]
fn writes_entries(rt: HostRuntime) -> Result<(), Fail> {
    for (act, want) in ENTRIES {
        assert!(rt; is_entered(rt.alloc(), *act, want)?, "{want}");
    }
    Ok(())
}
