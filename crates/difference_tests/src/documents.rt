//! Documents of a few lines: headings, triples among them, line ends, and faults.

use crate::texts::{Says, full, said};
use StageWord::{Blank, Heading, NoEnd, Subject, Syntax, Utf8};
use room_words::StageWord;
use std::test::Fail;

/// Documents in short, and what they say.
const DOCUMENTS: &[(&str, Says)] = &[
    // The lists, in their order; what is missing is empty.
    ("%end", Says::Lists(0, 0, 0, 0)),
    (
        "%header\n~51> <p> \"v\" .\n%preconditions\n~51> <p> \"v\" .\n~52> <p> \"v\" .\n%reverse\n%forward\n~51> <p> \"w\" .\n~51> <p> \"w\" .\n~51> <p> <b> .\n%end\n",
        Says::Lists(1, 2, 0, 3),
    ),
    (
        "%preconditions\n~51> <p> \"v\" .\n%forward\n~51> <p> \"w\" .\n~51> <p> \"w\" .\n%end\n",
        Says::Lists(0, 1, 0, 2),
    ),
    (
        "%reverse\n~51> <p> \"v\" .\n%end\n",
        Says::Lists(0, 0, 1, 0),
    ),
    // Empty lines and comments stand anywhere.
    (
        "\n# before\n \t# and more\n%reverse\n\n# _:x\n~51> <p> \"v\" . # %end\n%end\n\n# after\n",
        Says::Lists(0, 0, 1, 0),
    ),
    // Line ends, and blanks behind headings.
    (
        "%header\r\n~51> <p> \"v\" .\r\n%end\r\n",
        Says::Lists(1, 0, 0, 0),
    ),
    (
        "%reverse\r~51> <p> \"v\" .\r%end\r",
        Says::Lists(0, 0, 1, 0),
    ),
    (
        "%forward\n\r~51> <p> \"v\" .\n\r%end",
        Says::Lists(0, 0, 0, 1),
    ),
    (
        "%forward \t\n~51> <p> \"v\" .\n%end \t ",
        Says::Lists(0, 0, 0, 1),
    ),
    ("%end\t\r\n\r\n", Says::Lists(0, 0, 0, 0)),
    // The end is missing: the number of lines.
    ("", Says::Fault(0, NoEnd)),
    ("\n", Says::Fault(1, NoEnd)),
    ("\r\n\r", Says::Fault(2, NoEnd)),
    ("%forward\n~51> <p> \"v\" .\n", Says::Fault(2, NoEnd)),
    ("%forward\n~51> <p> \"v\" .", Says::Fault(2, NoEnd)),
    (
        "%header\n%preconditions\n%reverse\n%forward\n\n",
        Says::Fault(5, NoEnd),
    ),
    // What begins with a percent sign and is no heading.
    ("%", Says::Fault(1, Heading)),
    ("%End\n%end", Says::Fault(1, Heading)),
    ("%ending\n%end", Says::Fault(1, Heading)),
    ("%end # done", Says::Fault(1, Heading)),
    ("%end\u{a0}", Says::Fault(1, Heading)),
    ("% end", Says::Fault(1, Heading)),
    ("%forward\n%footer\n%end", Says::Fault(2, Heading)),
    ("%forward\n%_:x\n%end", Says::Fault(2, Heading)),
    (" %end", Says::Fault(1, Syntax)),
    // Headings that are repeated or out of order.
    ("%reverse\n%reverse\n%end", Says::Fault(2, Heading)),
    ("%forward\n%reverse\n%end", Says::Fault(2, Heading)),
    ("%preconditions\n\n%header\n%end", Says::Fault(3, Heading)),
    ("%end\n%end", Says::Fault(2, Heading)),
    ("%end\n%header", Says::Fault(2, Heading)),
    // Triples where none may stand.
    ("~51> <p> \"v\" .\n%end", Says::Fault(1, Heading)),
    (
        "\r\n# c\r\n~51> <p> \"v\" .\r\n%end",
        Says::Fault(3, Heading),
    ),
    ("%end\n\n~51> <p> \"v\" .", Says::Fault(3, Heading)),
    // Lines that are refused, wherever they stand.
    ("%reverse\n_:b <p> <q> .\n%end", Says::Fault(2, Blank)),
    ("%reverse\n~51> <p> _:b .\n%end", Says::Fault(2, Blank)),
    ("_:b <p> <q> .", Says::Fault(1, Blank)),
    ("%reverse\n~51> <p> \"v\"\n%end", Says::Fault(2, Syntax)),
    ("x\n%end", Says::Fault(1, Syntax)),
    ("%end\nx", Says::Fault(2, Syntax)),
    (
        "%reverse\n<http://x/y> <p> \"v\" .\n%end",
        Says::Fault(2, Subject),
    ),
    ("<http://x/y> <p> \"v\" .", Says::Fault(1, Subject)),
    ("%end\n<http://x/y> <p> \"v\" .", Says::Fault(2, Subject)),
    // The first line at fault decides, and goes before the missing end.
    ("%reverse\nx\n%footer\n", Says::Fault(2, Syntax)),
    ("%footer\nx\n", Says::Fault(1, Heading)),
    ("%reverse\n~51> <p> \"v\" .\r\nx", Says::Fault(3, Syntax)),
];

#[test]
fn reads_documents(rt: HostRuntime) -> Result<(), Fail> {
    for (short, want) in DOCUMENTS {
        let document = full(rt.alloc(), short)?;
        assert_eq!(rt; said(rt.alloc(), document.as_bytes())?, *want, "{short}");
    }
    Ok(())
}

/// Documents with bytes that are no UTF-8, and the fault.
const BYTES: &[(&[u8], Says)] = &[
    (b"%reverse\n# \xFF\n%end", Says::Fault(2, Utf8)),
    (b"\xC3\n%end", Says::Fault(1, Utf8)),
    (b"%end\n\xED\xA0\x80", Says::Fault(2, Utf8)),
    (b"%\xFF\n%end", Says::Fault(1, Heading)),
    (b"%end \xFF", Says::Fault(1, Heading)),
];

#[test]
fn refuses_bytes_that_are_no_text(rt: HostRuntime) -> Result<(), Fail> {
    for (number, (document, want)) in BYTES.iter().enumerate() {
        assert_eq!(rt; said(rt.alloc(), document)?, *want, "document {number}");
    }
    Ok(())
}
