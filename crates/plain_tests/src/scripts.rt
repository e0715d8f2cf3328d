//! What the program answers to scripts.

use crate::bases::base;
use crate::runs::{ends, spelled};
use cim_words::NoMemory;
use grid_out::{Files, MemShelf, MemSink};
use nt_text::LineRefusal;
use room_plain::Status;
use std::alloc::Global;
use std::test::Fail;

/// A switch is opened and closed, and the network is traced after each.
const SWITCHING: &str = "c1 open ~b1/c1 trace ~e1 ABC/c1 close ~b1/c1 trace ~e1 ABC/";

/// What that is answered over the first base.
const SWITCHED: &str =
    "c1 ok 1/c1 trace 1 2/~b1 ABC/~e1 ABC/c1 ok 2/c1 trace 2 4/~51 ABC/~b1 ABC/~c1 ABC/~e1 ABC/history 2/1 c1 1 open ~b1/2 c1 2 close ~b1/";

/// A shelf with the first base, a bad one, and the script, whose calls of the listed numbers fail.
fn shelf(alloc: Global, failing: &[u64]) -> Result<MemShelf, NoMemory> {
    let mut files = Files::empty(alloc);
    files.add("base", base(alloc, "", &[])?.as_bytes())?;
    files.add("bad", b"_:b <http://x/p> \"v\" .")?;
    files.add("switching", spelled(alloc, SWITCHING)?.as_bytes())?;
    files.add("empty", b"")?;
    MemShelf::new(alloc, files, failing)
}

/// Whether a command ends so and writes this, where these calls of the shelf and of the output fail, and the output has so much room.
fn answers(
    alloc: Global,
    command: &str,
    (reads, writes, room): (&[u64], &[u64], usize),
    status: Status,
    text: &str,
) -> Result<bool, NoMemory> {
    let mut shelf = shelf(alloc, reads)?;
    let out = MemSink::new(alloc, room, writes)?;
    let text = spelled(alloc, text)?;
    ends(alloc, &mut shelf, out, command, status, text.as_bytes())
}

const BLANK_IN_1: Status = Status::Document {
    line: 1,
    why: LineRefusal::Blank,
};

/// Commands, and of each how it ends, the code of this, and what is written.
const ANSWERS: &[(&str, Status, u8, &str)] = &[
    ("script base switching", Status::Ok, 0, SWITCHED),
    ("script base empty", Status::Ok, 0, "history 0/"),
    ("script empty empty", Status::Ok, 0, "history 0/"),
    ("script base other", Status::ReadFault, 1, "read fault/"),
    (
        "script other switching",
        Status::ReadFault,
        1,
        "read fault/",
    ),
    ("script bad other", Status::ReadFault, 1, "read fault/"),
    ("script bad switching", BLANK_IN_1, 3, "document 1 Blank/"),
    ("script base", Status::Usage, 2, "usage/"),
    ("script base switching x", Status::Usage, 2, "usage/"),
    ("script base -switching", Status::Usage, 2, "usage/"),
    ("script -base switching", Status::Usage, 2, "usage/"),
    ("script base ", Status::Usage, 2, "usage/"),
    ("check base switching", Status::Usage, 2, "usage/"),
];

#[test]
fn scripts_are_played(rt: HostRuntime) -> Result<(), Fail> {
    for (command, status, code, text) in ANSWERS {
        let right = answers(rt.alloc(), command, (&[], &[], 1000), *status, text)?;
        assert!(rt; right && status.code() == *code, "{command}");
    }
    Ok(())
}

/// Which calls of the shelf and of the output fail as the script is played, and how much the output takes; how this ends, and what is
/// written.
const FAULTS: &[(&[u64], &[u64], usize, Status, &str)] = &[
    (&[1], &[], 1000, Status::ReadFault, "read fault/"),
    (&[2], &[], 1000, Status::ReadFault, "read fault/"),
    (&[3], &[], 1000, Status::Ok, SWITCHED),
    (&[], &[1], 1000, Status::WriteFault, ""),
    (&[], &[], 10, Status::WriteFault, "c1 ok 1/c1"),
    (&[2], &[1], 1000, Status::ReadFault, ""),
];

#[test]
fn faults_of_the_outside(rt: HostRuntime) -> Result<(), Fail> {
    for (reads, writes, room, status, text) in FAULTS {
        let faults = (*reads, *writes, *room);
        let right = answers(rt.alloc(), "script base switching", faults, *status, text)?;
        assert!(rt; right, "{text}");
    }
    Ok(())
}
