//! Lines in every spelling, documents in every cut, and the one written line.

ghost use Rattle.std.specs.Prelude.{◌+◌, ◌^◌, ◌<◌, length};

use cim_words::{NoMemory, Statement, Statements};
use nt_text::{
    LINE_LIMIT, LineFault, LineReader, LineRefusal, NtFault, read_line, read_written,
    write_statement,
};
use std::alloc::Global;
use std::test::Fail;

const SUBJECT: &str = "<urn:uuid:00000000-0000-0000-0000-0000000000a1>";

const V: &str = r#"<urn:uuid:00000000-0000-0000-0000-0000000000a1> <http://x/p> "v" ."#;

const NAME: &str = r#"<urn:uuid:00000000-0000-0000-0000-0000000000a1> <http://x/p> <b> ."#;

/// The lines whose subject is written as usual, and what each reads as after that subject.
const AFTER_SUBJECT: &[(&str, &str)] = &[
    (r#" <http://x/p> "v" ."#, r#" <http://x/p> "v" ."#),
    (r#"<http://x/p>"v"."#, r#" <http://x/p> "v" ."#),
    ("\t<http://x/p>\t \"v\" \t. # v", r#" <http://x/p> "v" ."#),
    (r#" <http://x/p> "v"@en ."#, r#" <http://x/p> "v" ."#),
    (r#" <http://x/p> "v"@en-US-x1."#, r#" <http://x/p> "v" ."#),
    (r#" <http://x/p> "v" @en ."#, r#" <http://x/p> "v" ."#),
    (
        r#" <http://x/p> "v"^^<http://d> ."#,
        r#" <http://x/p> "v" ."#,
    ),
    (r#" <http://x/p> "v" ^^ <d>."#, r#" <http://x/p> "v" ."#),
    (r#" <p> "\t\b\f\'" ."#, " <p> \"\t\u{8}\u{c}'\" ."),
    (r#" <p> "\n\r\"\\" ."#, r#" <p> "\n\r\"\\" ."#),
    (r#" <p> "\u00e9\U0001f600\u00E9" ."#, " <p> \"é😀é\" ."),
    (" <p> \"é\" .", " <p> \"é\" ."),
    (r#" <\u0041> <b\u003c> ."#, r#" <A> <b\u003C> ."#),
    (r#" <p> <\u0062> ."#, r#" <p> <b> ."#),
    (
        " <p> <x#_00000000-0000-0000-0000-0000000000A1> .",
        " <p> <urn:uuid:00000000-0000-0000-0000-0000000000a1> .",
    ),
    (" <p> <> .", " <p> <> ."),
    (" <p> _:x .", "Blank"),
    (" <p>_: garbage", "Blank"),
    (" _:p <b> .", "Syntax"),
    (" p \"v\" .", "Syntax"),
    (r#" <p> "\uD800" ."#, "Syntax"),
    (r#" <p> "\U00110000" ."#, "Syntax"),
    (r#" <p> "\u004" ."#, "Syntax"),
    (r#" <p> "\u004g" ."#, "Syntax"),
    (r#" <p> "\U0000004" ."#, "Syntax"),
    (r#" <p> "\a" ."#, "Syntax"),
    ("<p> \"a\rb\" .", "Syntax"),
    (r#" <p> "v\" ."#, "Syntax"),
    (r#" <p> <a\n> ."#, "Syntax"),
    (" <p> <a b> .", "Syntax"),
    (r#" <p> "v"@1 ."#, "Syntax"),
    (r#" <p> "v"@en- ."#, "Syntax"),
    (r#" <p> "v"@en_US ."#, "Syntax"),
    (r#" <p> "v"^^d ."#, "Syntax"),
    (r#" <p> "v"^^<a b> ."#, "Syntax"),
    (r#" <p> "v"^<d> ."#, "Syntax"),
    (r#" <p> "v""#, "Syntax"),
    (r#" <p> "v" . ."#, "Syntax"),
    (r#" <p> ."#, "Syntax"),
];

/// Other lines, and what each reads as.
const LINES: &[(&str, &str)] = &[
    (V, V),
    (
        r#"<x#_00000000-0000-0000-0000-0000000000A1> <http://x/p> "v" ."#,
        V,
    ),
    (
        r#" <#_\u00300000000-0000-0000-0000-0000000000a1> <http://x/p> "v" ."#,
        V,
    ),
    (
        "<urn:uuid:00000000-0000-0000-0000-0000000000A1> <http://x/p> <b>.#",
        NAME,
    ),
    ("", ""),
    (" \t", ""),
    ("# <a> <b> _:x", ""),
    (" #", ""),
    ("_:x <p> <b> .", "Blank"),
    (" _:", "Blank"),
    ("<a> <b> _:x garbage", "Blank"),
    (r#"<http://x/y> <p> "v" ."#, "Subject"),
    (r#"<http://x/y> <p> "v""#, "Syntax"),
    ("<a b> <p> _:x .", "Syntax"),
];

/// The line of a statement.
fn line_of(alloc: Global, statement: &Statement) -> Result<Vec<u8>, NoMemory> {
    let mut line = Vec::new(alloc);
    write_statement(statement, &mut line)?;
    line.pop();
    Ok(line)
}

/// The written line of the statement that is read, nothing, or the refusal's word.
fn shown(alloc: Global, line: &[u8]) -> Result<Vec<u8>, NoMemory> {
    match read_line(alloc, line) {
        Ok(Some(statement)) => line_of(alloc, &statement),
        Ok(None) => Ok(Vec::new(alloc)),
        Err(LineFault::Refusal(why)) => Vec::from_slice(alloc, why.word().as_bytes()),
        Err(LineFault::NoMemory) => Err(NoMemory),
    }
}

/// Whether a line reads as this.
fn reads(alloc: Global, line: &str, want: &str) -> Result<bool, NoMemory> {
    Ok(shown(alloc, line.as_bytes())?.as_slice() == want.as_bytes())
}

/// Whether a line behind the subject reads as this, which stands behind the subject too where it is a line.
fn reads_behind(alloc: Global, line: &str, want: &str) -> Result<bool, NoMemory> {
    let line = [SUBJECT, line].concat(alloc)?;
    let subject = if want.starts_with(' ') { SUBJECT } else { "" };
    let want = [subject, want].concat(alloc)?;
    reads(alloc, &line, &want)
}

#[test]
fn reads_behind_the_subject(rt: HostRuntime) -> Result<(), Fail> {
    for (line, want) in AFTER_SUBJECT {
        assert!(rt; reads_behind(rt.alloc(), line, want)?, "{line}");
    }
    Ok(())
}

#[test]
fn reads_lines(rt: HostRuntime) -> Result<(), Fail> {
    for (line, want) in LINES {
        assert!(rt; reads(rt.alloc(), line, want)?, "{line}");
    }
    Ok(())
}

/// The beginning and the end of lines, how many bytes they have with letters between, and what they read as.
const LIMITS: &[(&str, &str, usize, &str)] = &[
    (
        COMMENTED,
        "",
        LINE_LIMIT,
        "<urn:uuid:00000000-0000-0000-0000-0000000000a1> <p> <b> .",
    ),
    (COMMENTED, "", LINE_LIMIT + 1, "LineTooLong"),
    (
        "<#_00000000-0000-0000-0000-0000000000a1> <p> \"",
        "\" .",
        LINE_LIMIT,
        "Wide",
    ),
];

const COMMENTED: &str = "<#_00000000-0000-0000-0000-0000000000a1> <p> <b> . #";

/// Whether a line of so many bytes reads as this.
fn reads_filled(
    alloc: Global,
    begin: &str,
    end: &str,
    length: usize,
    want: &str,
) -> Result<bool, NoMemory> {
    let count = length.saturating_sub(begin.len()).saturating_sub(end.len());
    let letters = "x".repeat(alloc, count)?;
    let line = [begin, letters.as_str(), end].concat(alloc)?;
    Ok(line.len() == length && reads(alloc, &line, want)?)
}

#[test]
fn keeps_to_limits(rt: HostRuntime) -> Result<(), Fail> {
    for (begin, end, length, want) in LIMITS {
        assert!(rt;
            reads_filled(rt.alloc(), begin, end, *length, want)?,
            "{want}"
        );
    }
    assert!(rt; shown(rt.alloc(), b"# \xFF")?.as_slice() == b"Utf8".as_slice());
    Ok(())
}

const WRITTEN: &[&str] = &[
    r#"<urn:uuid:00000000-0000-4000-8000-0000000000a1> <http://www.w3.org/1999/02/22-rdf-syntax-ns#type> <http://iec.ch/TC57/CIM100#Terminal> ."#,
    r#"<urn:uuid:00000000-0000-4000-8000-0000000000a1> <http://iec.ch/TC57/CIM100#Terminal.ConnectivityNode> <urn:uuid:ffffffff-ffff-ffff-ffff-ffffffffffff> ."#,
    r#"<urn:uuid:00000000-0000-4000-8000-0000000000a1> <http://x/p> "a\"b\\c\nd\re> ." ."#,
    r#"<urn:uuid:00000000-0000-4000-8000-0000000000a1> <http://x/a\u003Cb> <http://x/\u007Cc> ."#,
    r#"<urn:uuid:00000000-0000-4000-8000-0000000000a1> <> "" ."#,
];

const OTHER: &[&str] = &[
    "",
    r#"<urn:uuid:00000000-0000-4000-8000-0000000000A1> <http://x/p> "v" ."#,
    r#"<http://x#_00000000-0000-4000-8000-0000000000a1> <http://x/p> "v" ."#,
    r#"<urn:uuid:00000000-0000-4000-8000-0000000000a1> <http://x/p> <urn:uuid:FFFFFFFF-ffff-ffff-ffff-ffffffffffff> ."#,
    r#"<urn:uuid:00000000-0000-4000-8000-0000000000a1>  <http://x/p> "v" ."#,
    r#"<urn:uuid:00000000-0000-4000-8000-0000000000a1> <http://x/p> "v"."#,
    r#"<urn:uuid:00000000-0000-4000-8000-0000000000a1> <http://x/p> "v" . "#,
    r#"<urn:uuid:00000000-0000-4000-8000-0000000000a1> <http://x/p> "a\tb" ."#,
    r#"<urn:uuid:00000000-0000-4000-8000-0000000000a1> <http://x/\u003cb> "v" ."#,
    r#"<urn:uuid:00000000-0000-4000-8000-0000000000a1> <http://x/\u0041> "v" ."#,
    r#"<urn:uuid:00000000-0000-4000-8000-0000000000a1> <http://x/p> "v"@en ."#,
    r#"_:b <http://x/p> "v" ."#,
];

/// Whether a line is the written form of a statement, and of which: of the one that is written so.
fn is_written(alloc: Global, line: &str) -> Result<bool, NoMemory> {
    match read_written(alloc, line.as_bytes())? {
        Some(statement) => Ok(line_of(alloc, &statement)?.as_slice() == line.as_bytes()),
        None => Ok(false),
    }
}

#[test]
fn reads_what_is_written(rt: HostRuntime) -> Result<(), Fail> {
    for line in WRITTEN {
        assert!(rt; is_written(rt.alloc(), line)?, "{line}");
    }
    Ok(())
}

#[test]
fn one_spelling(rt: HostRuntime) -> Result<(), Fail> {
    for line in OTHER {
        assert!(rt;
            read_written(rt.alloc(), line.as_bytes())?.is_none(),
            "{line}"
        );
    }
    Ok(())
}

// Documents, how many statements stand before the first bad line, and that line.
const DOCUMENTS: &[(&str, usize, Option<(u32, LineRefusal)>)] = &[
    ("", 0, None),
    ("\r\n\n\r \t", 0, None),
    ("# a comment\r# and another\n\r", 0, None),
    (
        "<urn:uuid:00000000-0000-4000-8000-0000000000a1> <http://x/p> \"v\" .",
        1,
        None,
    ),
    (
        "<urn:uuid:00000000-0000-4000-8000-0000000000a1> <http://x/p> \"é\\u00e9\" .\r\n",
        1,
        None,
    ),
    (
        "\r<urn:uuid:00000000-0000-4000-8000-0000000000a1> <http://x/p> <http://x/é> .\r\r\n<urn:uuid:00000000-0000-4000-8000-0000000000a1> <http://x/p> \"v\\n\" .\n\r",
        2,
        None,
    ),
    ("x", 0, Some((1, LineRefusal::Syntax))),
    ("\r\nx\r\n", 0, Some((2, LineRefusal::Syntax))),
    ("\n\rx\n", 0, Some((3, LineRefusal::Syntax))),
    (
        "<urn:uuid:00000000-0000-4000-8000-0000000000a1> <http://x/p> \"v\" .\r<urn:uuid:00000000-0000-4000-8000-0000000000a1> <http://x/p> \"v\" .\r\n_:b <http://x/p> \"v\" .\n<urn:uuid:00000000-0000-4000-8000-0000000000a1> <http://x/p> \"v\" .\n",
        2,
        Some((3, LineRefusal::Blank)),
    ),
];

fn feed_pieces(
    reader: &mut LineReader,
    document: &[u8],
    size: usize,
    into: &mut Statements,
) -> Result<(), NtFault>
    requires room { reader.old.fed + length document.now < 2 ^ 32 }
    requires size { 0 < size }
{
    let mut left = document;
    while !left.is_empty() {
        let (piece, rest) = left.split_at(size.min(left.len()));
        reader.feed(piece, into)?;
        left = rest;
    }
    reader.finish(into)
}

/// Whether a document that is cut into pieces of a size has so many statements before this fault, if any.
fn is_read_cut(
    alloc: Global,
    document: &[u8],
    size: usize,
    count: usize,
    fault: Option<NtFault>,
) -> bool {
    if document.len() >= 1000 || size == 0 {
        return false;
    }
    let mut found = Statements::empty(alloc);
    let mut reader = LineReader::new(alloc);
    let read = feed_pieces(&mut reader, document, size, &mut found);
    read.err() == fault && found.len() == count && reader.finish(&mut found).err() == fault
}

/// Whether that is so of pieces of each size.
fn is_read(alloc: Global, document: &[u8], count: usize, fault: Option<NtFault>) -> bool {
    for size in 1..document.len() + 2 {
        if !is_read_cut(alloc, document, size, count, fault) {
            return false;
        }
    }
    true
}

#[test]
fn read_however_cut(rt: HostRuntime) {
    for (document, count, bad) in DOCUMENTS {
        let fault = bad.map(|(line, why)| NtFault::Line { line, why });
        assert!(rt;
            is_read(rt.alloc(), document.as_bytes(), *count, fault),
            "{document}"
        );
    }
}
