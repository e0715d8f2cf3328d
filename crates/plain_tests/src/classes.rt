//! Traces through each kind of switch and each class that passes current, and bases at the limit of bytes.

use crate::bases::{OPENED, base};
use crate::runs::{spelled, writes};
use cim_words::NoMemory;
use room_plain::Status;
use std::alloc::Global;
use std::test::Fail;

/// What a trace reaches from the source of the first base, and what it reaches where its breaker is open.
const ALL: &str = "trace 0 4/~51 ABC/~b1 ABC/~c1 ABC/~e1 ABC/";

const UP_TO_THE_BREAKER: &str = "trace 0 2/~b1 ABC/~e1 ABC/";

/// The classes that the breaker's place is given, and what a trace reaches where this is stated to be open.
const CLASSES: &[(&str, &str)] = &[
    ("Switch", UP_TO_THE_BREAKER),
    ("Breaker", UP_TO_THE_BREAKER),
    ("Disconnector", UP_TO_THE_BREAKER),
    ("Fuse", UP_TO_THE_BREAKER),
    ("LoadBreakSwitch", UP_TO_THE_BREAKER),
    ("Recloser", UP_TO_THE_BREAKER),
    ("Sectionaliser", UP_TO_THE_BREAKER),
    ("GroundDisconnector", UP_TO_THE_BREAKER),
    ("Jumper", UP_TO_THE_BREAKER),
    ("Junction", ALL),
    ("BusbarSection", ALL),
    ("SeriesCompensator", ALL),
];

/// Whether a trace from the source of a base writes this.
fn traces(alloc: Global, base: &str, text: &str) -> Result<bool, NoMemory> {
    let text = spelled(alloc, text)?;
    let command = "trace base ~e1 ABC";
    writes(alloc, base.as_bytes(), command, Status::Ok, text.as_bytes())
}

/// Whether a trace reaches this where the breaker's place is of a class and states this too.
fn passes(alloc: Global, class: &str, stated: &str, text: &str) -> Result<bool, NoMemory> {
    let line = format!(in alloc; "b1 a {class}")?;
    let base = base(alloc, "b1 a Breaker", &[&line, stated])?;
    traces(alloc, &base, text)
}

#[test]
fn current_goes_through_each_class_of_its_group(rt: HostRuntime) -> Result<(), Fail> {
    for (class, opened) in CLASSES {
        let closed = passes(rt.alloc(), class, "", ALL)?;
        assert!(rt;
            closed && passes(rt.alloc(), class, OPENED, opened)?,
            "{class}"
        );
    }
    Ok(())
}

#[test]
fn a_base_has_at_most_268_435_456_bytes(rt: HostRuntime) -> Result<(), Fail> {
    let alloc = rt.alloc();
    // A comment of 8,191 bytes and a line feed.
    let mut line = vec![in alloc; b'#'; 8_191]?;
    line.push(b'\n')?;
    let mut content = Vec::with_capacity(alloc, 268_435_457)?;
    for _ in 0..32_768 {
        content.extend_from_slice(&line)?;
    }
    assert!(rt; writes(alloc, &content, "check base", Status::Ok, b"ok 0\n")?);
    content.push(b'\n')?;
    assert!(rt; writes(alloc, &content, "check base", Status::Limit, b"limit\n")?);
    Ok(())
}
