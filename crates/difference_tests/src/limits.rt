//! Documents at the edge of what a difference can have.

use crate::texts::{Says, full, said};
use StageWord::{Heading, LineTooLong, Syntax, TooLong, TooMany, Wide};
use cim_words::NoMemory;
use room_words::StageWord;
use std::alloc::Global;
use std::test::Fail;

/// How many triples stand under the four headings, what stands in front of the last heading, and what the document says.
const LISTS: [([usize; 4], &str, Says); 6] = [
    (
        [200_000; 4],
        "# full\n",
        Says::Lists(200_000, 200_000, 200_000, 200_000),
    ),
    ([200_001, 0, 0, 0], "", Says::Fault(200_002, TooMany)),
    ([0, 200_001, 0, 0], "", Says::Fault(200_003, TooMany)),
    ([1, 1, 200_001, 1], "", Says::Fault(200_006, TooMany)),
    ([0, 0, 0, 200_002], "", Says::Fault(200_005, TooMany)),
    ([0, 0, 0, 200_000], "x\n", Says::Fault(200_005, Syntax)),
];

const HEADINGS: [&str; 4] = ["%header\n", "%preconditions\n", "%reverse\n", "%forward\n"];

/// A document with so many triples under the four headings, and something in front of the last heading.
fn listed(alloc: Global, counts: [usize; 4], last: &str) -> Result<Vec<u8>, NoMemory> {
    let triple = full(alloc, "~51> <p> <b> .\n")?;
    let mut document = Vec::new(alloc);
    for (heading, count) in HEADINGS.iter().zip(&counts) {
        document.extend_from_slice(heading.as_bytes())?;
        document.extend_from_slice(triple.repeat(alloc, *count)?.as_bytes())?;
    }
    document.extend_from_slice(last.as_bytes())?;
    document.extend_from_slice(b"%end\n")?;
    Ok(document)
}

#[test]
fn counts_statements(rt: HostRuntime) -> Result<(), Fail> {
    for (counts, last, want) in LISTS {
        let document = listed(rt.alloc(), counts, last)?;
        assert_eq!(rt; said(rt.alloc(), &document)?, want, "{counts:?}");
    }
    Ok(())
}

/// How a document of long comments begins, in five bytes, how many bytes its last line has, and what it says. With 8,187 bytes in the
/// last line it has 67,108,864 in all.
const LENGTHS: [(&str, usize, Says); 3] = [
    ("%end\n", 8_187, Says::Lists(0, 0, 0, 0)),
    ("%end\n", 8_188, Says::Fault(0, TooLong)),
    ("x\n\n\n\n", 8_188, Says::Fault(0, TooLong)),
];

/// A comment of so many bytes.
fn comment(alloc: Global, length: usize) -> Result<String, NoMemory> {
    let letters = "x".repeat(alloc, length.saturating_sub(1))?;
    ["#", letters.as_str()].concat(alloc)
}

fn commented(alloc: Global, begin: &str, last: usize) -> Result<String, NoMemory> {
    let line = [comment(alloc, 8_191)?.as_str(), "\n"].concat(alloc)?;
    let lines = line.repeat(alloc, 8_191)?;
    let last = comment(alloc, last)?;
    [begin, lines.as_str(), last.as_str()].concat(alloc)
}

#[test]
fn counts_bytes(rt: HostRuntime) -> Result<(), Fail> {
    for (begin, last, want) in LENGTHS {
        let document = commented(rt.alloc(), begin, last)?;
        let over = usize::from(last == 8_188);
        assert!(rt; document.len().wrapping_sub(over) == 67_108_864);
        assert_eq!(rt; said(rt.alloc(), document.as_bytes())?, want);
    }
    Ok(())
}

/// How many letters the last of 8,192 triples has, what stands behind the last heading, and what the document says. It is shorter than
/// its written form, which has 67,108,864 bytes with 8,090 letters: 46 of the headings, 8,192 of each triple but the last, and 8,146.
const WRITTEN: [(usize, &str, Says); 3] = [
    (8_090, "", Says::Lists(0, 0, 0, 8_192)),
    (8_091, "", Says::Fault(0, TooLong)),
    (8_091, "x", Says::Fault(8_195, Syntax)),
];

/// A triple with so many letters, in a shorter form than the one that is written.
fn triple(alloc: Global, letters: usize) -> Result<String, NoMemory> {
    let letters = "x".repeat(alloc, letters)?;
    [
        "<#_00000000-0000-4000-8000-000000000051><>\"",
        letters.as_str(),
        "\".\n",
    ]
    .concat(alloc)
}

fn tripled(alloc: Global, last: usize, end: &str) -> Result<String, NoMemory> {
    let triples = triple(alloc, 8_136)?.repeat(alloc, 8_191)?;
    let last = triple(alloc, last)?;
    ["%forward\n", triples.as_str(), last.as_str(), "%end\n", end].concat(alloc)
}

#[test]
fn counts_written_bytes(rt: HostRuntime) -> Result<(), Fail> {
    for (last, end, want) in WRITTEN {
        let document = tripled(rt.alloc(), last, end)?;
        assert!(rt; document.len() < 67_108_864);
        assert_eq!(rt; said(rt.alloc(), document.as_bytes())?, want);
    }
    Ok(())
}

/// The beginning and the end of a document, what is repeated between and how often, and what the document says.
const LINES: [(&str, &str, usize, &str, Says); 8] = [
    ("#", "x", 8_191, "\r\n%end", Says::Lists(0, 0, 0, 0)),
    ("#", "x", 8_192, "\r\n%end", Says::Fault(1, LineTooLong)),
    ("%end\n", " ", 8_193, "", Says::Fault(2, LineTooLong)),
    ("%end", " ", 9_000, "", Says::Lists(0, 0, 0, 0)),
    ("%", "x", 9_000, "\n%end", Says::Fault(1, Heading)),
    ("%end", "\t", 9_000, "x", Says::Fault(1, Heading)),
    (
        "%forward\n<#_00000000-0000-4000-8000-000000000051> <> \"",
        "x",
        8_137,
        "\" .\n%end",
        Says::Lists(0, 0, 0, 1),
    ),
    (
        "%forward\n<#_00000000-0000-4000-8000-000000000051> <> \"",
        "x",
        8_138,
        "\" .\n%end",
        Says::Fault(2, Wide),
    ),
];

fn filled(
    alloc: Global,
    begin: &str,
    piece: &str,
    count: usize,
    end: &str,
) -> Result<String, NoMemory> {
    let pieces = piece.repeat(alloc, count)?;
    [begin, pieces.as_str(), end].concat(alloc)
}

#[test]
fn counts_bytes_of_lines(rt: HostRuntime) -> Result<(), Fail> {
    for (begin, piece, count, end, want) in LINES {
        let document = filled(rt.alloc(), begin, piece, count, end)?;
        assert_eq!(rt;
            said(rt.alloc(), document.as_bytes())?,
            want,
            "{count} of {piece}"
        );
    }
    Ok(())
}
