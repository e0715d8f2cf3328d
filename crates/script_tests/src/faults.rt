//! What is no request, and documents that are refused, each with its line.

use crate::feeder::FEEDER;
use crate::playing::answers;
use crate::texts::lines;
use std::alloc::Global;
use std::test::Fail;

/// Scripts in short, and their answers without the history, which is empty.
const FAULTS: &[(&str, &str)] = &[
    // No console, or none that there is.
    (
        "c17 look\nc1 look 1\nc1 stage\n%revers\n",
        "- fault Console\nc1 fault Prefix\nc1 fault Stage 1 Heading\n",
    ),
    (
        "c0 look\nc01 look\nc1look\nC1 look\n c1 look\nlook\nc1\n",
        "- fault Console\n- fault Console\n- fault Console\n- fault Console\n- fault Console\n- fault Console\n- fault Console\n",
    ),
    (" \n\t\n", "- fault Console\n- fault Console\n"),
    // Empty lines and comments are skipped, whatever ends the lines.
    (
        "\n# c1 look\n#\r\n\r\rc16 look\r\nc9 look\rc10 look",
        "c16 seen 0\nc9 seen 0\nc10 seen 0\n",
    ),
    (
        "c1 \nc1  look\nc1 look \nc1 Look\nc1 look\tx\n",
        "c1 fault Word\nc1 fault Word\nc1 fault Field 1\nc1 fault Word\nc1 fault Word\n",
    ),
    (
        "c1 open\nc1 open x\nc1 open ~b1 x\nc1 trace ~e1\nc1 trace ~e1 BA\nc1 trace x BA\n",
        "c1 fault Count\nc1 fault Field 1\nc1 fault Count\nc1 fault Count\nc1 fault Field 2\nc1 fault Field 1\n",
    ),
    (
        "c1 cut ~91 ~51 04\nc1 cut ~91 ~51 10000000000000\nc1 cut ~91 x 4\nc1 jumper ~96 n:~a1 s:~91:3 A\nc1 ground ~97 ~a1 A\nc1 ground ~97 n:~a1 AA\n",
        "c1 fault Field 3\nc1 fault Field 3\nc1 fault Field 2\nc1 fault Field 3\nc1 fault Field 2\nc1 fault Field 3\n",
    ),
    (
        "c1 look 0\nc1 look 00\nc1 look 1048577\nc1 look 1048576\nc1 look x\nc1 look 0 0\n",
        "c1 seen 0\nc1 fault Field 1\nc1 fault Field 1\nc1 fault Prefix\nc1 fault Field 1\nc1 fault Count\n",
    ),
    (
        "c2 cutover\nc2 cutover now\nc2 bye\nc2 bye bye\n",
        "c2 fault Staged\nc2 fault Count\nc2 bye\nc2 fault Count\n",
    ),
    (
        "c1 trace ~ff ABC\nc1 trace ~a1 ABC\nc1 trace ~71 ABC\n",
        "c1 no 0 NoSuch\nc1 no 0 NoSuch\nc1 no 0 NoSuch\n",
    ),
    // What follows a stage that is none is requests.
    (
        "c1 stage x\n%end\nc1 look\n",
        "c1 fault Count\n- fault Console\nc1 seen 0\n",
    ),
    // Documents that never end.
    ("c1 stage\n%reverse\n", "c1 fault Stage 1 NoEnd\n"),
    ("c1 stage", "c1 fault Stage 0 NoEnd\n"),
    ("c1 stage\n\nc2 look\n", "c1 fault Stage 2 Syntax\n"),
    // A document ends at its first line of the last heading; another console may stage one afterwards.
    (
        "c1 stage\n%end\nc2 stage\n%header\n%end \t\nc1 look\n",
        "c1 staged 0 0 0\nc2 staged 0 0 0\nc1 seen 0\n",
    ),
    // Within a document nothing is skipped, and no line is a request.
    (
        "c3 stage\n# c1 look\n\nc1 look\n%end\nc3 cutover\n",
        "c3 fault Stage 3 Syntax\nc3 fault Staged\n",
    ),
    (
        "c3 stage\n%reverse\n_:b <p> \"v\" .\n%end\n",
        "c3 fault Stage 2 Blank\n",
    ),
    (
        "c3 stage\n%reverse\n<x> <p> \"v\" .\n%end\n",
        "c3 fault Stage 2 Subject\n",
    ),
    (
        "c3 stage\n<~51> <p> \"v\" .\n%end\n",
        "c3 fault Stage 1 Heading\n",
    ),
    (
        "c3 stage\n%forward\n%reverse\n%end\n",
        "c3 fault Stage 2 Heading\n",
    ),
    // What is staged stays where a later document is refused, and each console has its own.
    (
        "c1 stage\n%preconditions\n<~51> <p> \"v\" .\n%end\nc1 stage\n%\n%end\nc2 cutover\nc1 cutover\n",
        "c1 staged 1 0 0\nc1 fault Stage 1 Heading\nc2 fault Staged\nc1 no 0 Precondition 1\n",
    ),
];

#[test]
fn faults_are_told(rt: HostRuntime) -> Result<(), Fail> {
    let alloc = rt.alloc();
    for (number, (asked, answered)) in FAULTS.iter().enumerate() {
        let told = answers(alloc, FEEDER, lines(alloc, asked)?.as_bytes())?;
        let mut wanted = lines(alloc, answered)?;
        wanted.push_str("history 0\n")?;
        assert_eq!(rt; told, wanted, "script {number}");
    }
    Ok(())
}

/// A text with as many letters behind it, and an end.
fn padded(alloc: Global, text: &[u8], letters: usize, end: &[u8]) -> Result<Vec<u8>, Fail> {
    let some = [b'v'; 4096];
    let mut bytes = Vec::from_slice(alloc, text)?;
    for _ in 0..letters / some.len() {
        bytes.extend_from_slice(&some)?;
    }
    bytes.extend_from_slice(&some[..letters % some.len()])?;
    bytes.extend_from_slice(end)?;
    Ok(bytes)
}

/// How many letters follow a text, and what the script of both is answered.
const LONG: &[(&str, usize, &str, &str)] = &[
    // A line of 8,192 bytes and one of one more, without and with a console.
    (
        "c1 ",
        8_189,
        "\nc1 look\n",
        "c1 fault Word\nc1 seen 0\nhistory 0\n",
    ),
    (
        "c1 ",
        8_190,
        "\nc1 look\n",
        "- fault Long\nc1 seen 0\nhistory 0\n",
    ),
    ("v", 8_191, "\n", "- fault Console\nhistory 0\n"),
    ("v", 8_192, "", "- fault Long\nhistory 0\n"),
    ("#", 9_000, "\n", "history 0\n"),
    (
        "c1 stage\n#",
        8_191,
        "\n%end\n",
        "c1 staged 0 0 0\nhistory 0\n",
    ),
    (
        "c1 stage\n#",
        8_192,
        "\n%end\n",
        "c1 fault Stage 1 LineTooLong\nhistory 0\n",
    ),
];

#[test]
fn long_lines_are_told(rt: HostRuntime) -> Result<(), Fail> {
    let alloc = rt.alloc();
    for (text, letters, end, answered) in LONG {
        let script = padded(alloc, text.as_bytes(), *letters, end.as_bytes())?;
        assert_eq!(rt;
            answers(alloc, FEEDER, &script)?.as_str(),
            *answered,
            "{text}, {letters}"
        );
    }
    Ok(())
}

/// A document of 67,108,864 bytes, and one of one more.
#[test]
fn long_documents_are_told(rt: HostRuntime) -> Result<(), Fail> {
    let alloc = rt.alloc();
    let limit = padded(alloc, b"c1 stage\n#", 67_108_857, b"\n%end\nc1 look\n")?;
    assert_eq!(rt;
        answers(alloc, FEEDER, &limit)?.as_str(),
        "c1 fault Stage 1 LineTooLong\nc1 seen 0\nhistory 0\n"
    );
    let beyond = padded(alloc, b"c1 stage\n#", 67_108_858, b"\n%end\nc1 look\n")?;
    assert_eq!(rt;
        answers(alloc, FEEDER, &beyond)?.as_str(),
        "c1 fault Stage 0 TooLong\nc1 seen 0\nhistory 0\n"
    );
    Ok(())
}
