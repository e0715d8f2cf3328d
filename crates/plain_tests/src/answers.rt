//! What the program answers to commands over small bases and documents.

use crate::bases::{CLOSED, CUT, FURTHER, LATERAL, TRANSFORMER, base};
use crate::runs::{ID_BEGIN, ends, identified, spelled};
use cim_words::{Id, NoMemory};
use grid_out::{Files, MemShelf, MemSink};
use nt_text::LineRefusal;
use room_plain::Status;
use std::alloc::Global;
use std::test::Fail;

/// The bases: a name, the line of the first base that is left out, lines behind it, and statements in full behind these.
const BASES: &[(&str, &str, &[&str], &str)] = &[
    ("b1", "", &[], ""),
    ("b2", "", &[LATERAL], ""),
    ("b3", "", &[TRANSFORMER], ""),
    ("b5", "", &[CUT], ""),
    ("b6", "", &[CUT, CLOSED], ""),
    ("b0", "76 Terminal.ConductingEquipment ~c1", &[], ""),
    ("b9", "", &[], FURTHER),
];

/// Small documents.
const DOCUMENTS: &[(&str, &str)] = &[
    ("empty", ""),
    (
        "spellings",
        "<http://x#_~AB> <http://x/p> \"v\" . # c\r\n<urn:uuid:~ab> <http://x/p> \"v\"^^<http://x/t> .",
    ),
    (
        "third",
        "<urn:uuid:~ab> <http://x/p> \"v\" .\n<urn:uuid:~ab> <http://x/p> \"w\" .\n<urn:uuid:~ab> <http://x/p> \"v",
    ),
    ("blank", "_:b <http://x/p> \"v\" ."),
    ("subject", "<http://x/y> <http://x/p> \"v\" ."),
    ("ends", "# one\r\n\r# three\n<urn:uuid:~ab> <http://x/p> ."),
];

/// Documents of one line, and how many letters this has besides 65 bytes.
const LONG: &[(&str, usize)] = &[("fits", 8_127), ("long", 8_128)];

/// A base as in a row.
fn base_with(
    alloc: Global,
    left_out: &str,
    further: &[&str],
    statements: &str,
) -> Result<String, NoMemory> {
    let mut text = base(alloc, left_out, further)?;
    text.push_str(&identified(alloc, statements)?)?;
    Ok(text)
}

fn add_bases(alloc: Global, files: &mut Files) -> Result<(), NoMemory> {
    for (name, left_out, further, statements) in BASES {
        files.add(
            name,
            base_with(alloc, left_out, further, statements)?.as_bytes(),
        )?;
    }
    Ok(())
}

fn add_documents(alloc: Global, files: &mut Files) -> Result<(), NoMemory> {
    for (name, text) in DOCUMENTS {
        files.add(name, identified(alloc, text)?.as_bytes())?;
    }
    files.add("utf8", &[0xFF])
}

/// A line of one statement that has 65 bytes besides these letters.
fn long_line(alloc: Global, letters: usize) -> Result<String, NoMemory> {
    let letters = "v".repeat(alloc, letters)?;
    [
        "<urn:uuid:",
        ID_BEGIN,
        "ab> <http://x/p> \"",
        letters.as_str(),
        "\" .",
    ]
    .concat(alloc)
}

fn add_long(alloc: Global, files: &mut Files) -> Result<(), NoMemory> {
    for (name, letters) in LONG {
        files.add(name, long_line(alloc, *letters)?.as_bytes())?;
    }
    Ok(())
}

/// A shelf with the bases and the documents.
fn shelf(alloc: Global) -> Result<MemShelf, NoMemory> {
    let mut files = Files::empty(alloc);
    add_bases(alloc, &mut files)?;
    add_documents(alloc, &mut files)?;
    add_long(alloc, &mut files)?;
    MemShelf::new(alloc, files, &[])
}

/// Whether a command ends so and writes this, where the output has so much room and this of its calls fails, if any.
fn answers(
    alloc: Global,
    command: &str,
    (room, failing): (usize, &[u64]),
    status: Status,
    text: &str,
) -> Result<bool, NoMemory> {
    let out = MemSink::new(alloc, room, failing)?;
    let text = spelled(alloc, text)?;
    ends(
        alloc,
        &mut shelf(alloc)?,
        out,
        command,
        status,
        text.as_bytes(),
    )
}

/// The consumer's terminal names no equipment.
const OWNERLESS: Status = Status::Profile {
    rule: 3,
    subject: Id {
        number: 0x4000_8000_0000_0000_0076,
    },
};

const BLANK_IN_1: Status = Status::Document {
    line: 1,
    why: LineRefusal::Blank,
};

const SUBJECT_IN_1: Status = Status::Document {
    line: 1,
    why: LineRefusal::Subject,
};

const UTF8_IN_1: Status = Status::Document {
    line: 1,
    why: LineRefusal::Utf8,
};

const TOO_LONG_IN_1: Status = Status::Document {
    line: 1,
    why: LineRefusal::LineTooLong,
};

const SYNTAX_IN_3: Status = Status::Document {
    line: 3,
    why: LineRefusal::Syntax,
};

const SYNTAX_IN_4: Status = Status::Document {
    line: 4,
    why: LineRefusal::Syntax,
};

/// Commands, and of each how it ends, the code of this, and what is written.
const ANSWERS: &[(&str, Status, u8, &str)] = &[
    (
        "trace b1 ~e1 ABC",
        Status::Ok,
        0,
        "trace 0 4/~51 ABC/~b1 ABC/~c1 ABC/~e1 ABC/",
    ),
    (
        "trace b1 ~c1 A",
        Status::Ok,
        0,
        "trace 0 4/~51 A/~b1 A/~c1 A/~e1 A/",
    ),
    (
        "trace b1 ~E1 ABC",
        Status::Ok,
        0,
        "trace 0 4/~51 ABC/~b1 ABC/~c1 ABC/~e1 ABC/",
    ),
    ("trace b1 ~e1 N", Status::Ok, 0, "trace 0 0/"),
    ("trace b1 ~a1 ABC", Status::Asked, 4, "asked/"),
    ("trace empty ~e1 ABC", Status::Asked, 4, "asked/"),
    (
        "trace b2 ~e1 ABC",
        Status::Ok,
        0,
        "trace 0 5/~51 ABC/~52 A/~b1 ABC/~c1 ABC/~e1 ABC/",
    ),
    (
        "trace b3 ~e1 ABC",
        Status::Ok,
        0,
        "trace 0 6/~51 ABC/~b1 ABC/~c1 ABC/~c2 s12/~d1 As12/~e1 ABC/",
    ),
    (
        "trace b3 ~c2 s12N",
        Status::Ok,
        0,
        "trace 0 2/~c2 s12N/~d1 s12N/",
    ),
    ("check b5", Status::Ok, 0, "ok 39/"),
    (
        "trace b5 ~e1 ABC",
        Status::Ok,
        0,
        "trace 0 4/~51 ABC/~92 ABC/~b1 ABC/~e1 ABC/",
    ),
    (
        "trace b5 ~c1 ABC",
        Status::Ok,
        0,
        "trace 0 3/~51 ABC/~92 ABC/~c1 ABC/",
    ),
    (
        "trace b6 ~e1 ABC",
        Status::Ok,
        0,
        "trace 0 5/~51 ABC/~92 ABC/~b1 ABC/~c1 ABC/~e1 ABC/",
    ),
    ("trace b8 ~e1 ABC", Status::ReadFault, 1, "read fault/"),
    ("check b1", Status::Ok, 0, "ok 29/"),
    ("check empty", Status::Ok, 0, "ok 0/"),
    ("check spellings", Status::Ok, 0, "ok 1/"),
    ("check fits", Status::Ok, 0, "ok 1/"),
    ("check b2", Status::Ok, 0, "ok 41/"),
    ("check b9", Status::Ok, 0, "ok 34/"),
    (
        "trace b9 ~e1 ABC",
        Status::Ok,
        0,
        "trace 0 4/~51 ABC/~b1 ABC/~c1 ABC/~e1 ABC/",
    ),
    ("check third", SYNTAX_IN_3, 3, "document 3 Syntax/"),
    ("trace third ~e1 ABC", SYNTAX_IN_3, 3, "document 3 Syntax/"),
    ("check blank", BLANK_IN_1, 3, "document 1 Blank/"),
    ("check subject", SUBJECT_IN_1, 3, "document 1 Subject/"),
    ("check utf8", UTF8_IN_1, 3, "document 1 Utf8/"),
    ("check long", TOO_LONG_IN_1, 3, "document 1 LineTooLong/"),
    ("check ends", SYNTAX_IN_4, 3, "document 4 Syntax/"),
    ("check b0", OWNERLESS, 3, "profile 3 ~76/"),
    ("trace b0 ~e1 ABC", OWNERLESS, 3, "profile 3 ~76/"),
    ("check b8", Status::ReadFault, 1, "read fault/"),
    ("check", Status::Usage, 2, "usage/"),
    ("check -b1", Status::Usage, 2, "usage/"),
    ("check b1 b1", Status::Usage, 2, "usage/"),
    ("trace b1 ~e1 -", Status::Usage, 2, "usage/"),
    ("trace b1 ~e1 BA", Status::Usage, 2, "usage/"),
    ("trace b1 {~e1} ABC", Status::Usage, 2, "usage/"),
    ("trace -b1 ~e1 ABC", Status::Usage, 2, "usage/"),
    ("trace  ~e1 ABC", Status::Usage, 2, "usage/"),
    ("trace b1 ~e1 ABC ", Status::Usage, 2, "usage/"),
];

#[test]
fn traces_and_refusals(rt: HostRuntime) -> Result<(), Fail> {
    for (command, status, code, text) in ANSWERS {
        let right = answers(rt.alloc(), command, (1000, &[]), *status, text)?;
        assert!(rt; right && status.code() == *code, "{command}");
    }
    Ok(())
}

/// Commands, and of each how much the output takes before it is full, which of its calls fails, how the command ends, and what is
/// written.
const FAULTS: &[(&str, usize, u64, Status, &str)] = &[
    ("trace b1 ~e1 ABC", 1000, 1, Status::WriteFault, ""),
    ("trace b1 ~e1 ABC", 10, 2, Status::WriteFault, "trace 0 4/"),
    ("trace b1 ~a1 ABC", 1000, 1, Status::Asked, ""),
    ("check b1", 1000, 1, Status::WriteFault, ""),
    ("check third", 8, 2, SYNTAX_IN_3, "document"),
    ("check", 3, 2, Status::Usage, "usa"),
];

#[test]
fn faults_of_the_output(rt: HostRuntime) -> Result<(), Fail> {
    for (command, room, failing, status, text) in FAULTS {
        let right = answers(rt.alloc(), command, (*room, &[*failing]), *status, text)?;
        assert!(rt; right, "{command}");
    }
    Ok(())
}
