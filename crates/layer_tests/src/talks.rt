//! Sessions of lines over links in memory, one after another in one room, with an answerer that says each line again.
ghost use Rattle.std.specs.Prelude.{◌≡◌, ℕ, ◌+◌, ◌<◌, ◌≤◌, List, ◌++◌, Some, None, IfOk, OnErr};
ghost use Rattle.line_serve.specs.AnsweredLines.{Answer, most_input};

use grid_out::{MemLink, NoMemory, SureLink};
use line_serve::{Answerer, LineRoom, LinesEnd, Next, serve_lines};
use std::alloc::Global;
use std::sync::Wait;
use std::test::Fail;

/// Says each line again. It is silent at `quiet`, ends the session at `bye`, and has no memory for `full`.
#[derive(Drop)]
struct Echo;

impl Answerer for Echo {
    ghost answers = { λ _ _ _ _. Unit {0} };

    ghost patience = { λ _. most_input };

    fn line<R: Wait>(
        &mut self,
        _rt: &R,
        _alloc: Global,
        line: &[u8],
        out: &mut Vec<u8>,
    ) -> Result<Next, NoMemory> {
        if line == b"quiet".as_slice() {
            return Ok(Next::Go);
        }
        if line == b"full".as_slice() {
            return Err(NoMemory);
        }
        let before = out.len();
        if out.extend_from_slice(line).is_err() || out.push(b'\n').is_err() {
            out.truncate(before);
            return Err(NoMemory);
        }
        if line == b"bye".as_slice() {
            return Ok(Next::Bye);
        }
        Ok(Next::Go)
    }
}

/// What comes, which reads and writes fail, the room for what is written, how the session ends, and what is written.
type Talk = (
    &'static str,
    &'static [u64],
    &'static [u64],
    usize,
    LinesEnd,
    &'static str,
);

const TALKS: &[Talk] = &[
    ("", &[], &[], 99, LinesEnd::Ended, ""),
    ("one\ntwo\n", &[], &[], 99, LinesEnd::Ended, "one\ntwo\n"),
    ("one\ntwo", &[], &[], 99, LinesEnd::Ended, "one\n"),
    ("\none\n", &[], &[], 99, LinesEnd::Ended, "\none\n"),
    (
        "one\r\n\r\nt\rwo\r\r\n",
        &[],
        &[],
        99,
        LinesEnd::Ended,
        "one\n\nt\rwo\r\n",
    ),
    ("one\nbye\ntwo\n", &[], &[], 99, LinesEnd::Bye, "one\nbye\n"),
    ("bye\r\ntwo\n", &[], &[], 99, LinesEnd::Bye, "bye\n"),
    (
        "full\none\n",
        &[],
        &[],
        99,
        LinesEnd::Ended,
        "memory\none\n",
    ),
    (
        "quiet\none\nquiet\n",
        &[],
        &[2],
        99,
        LinesEnd::Ended,
        "one\n",
    ),
    ("one\n", &[1], &[], 99, LinesEnd::ReadFault, ""),
    ("one\n", &[2], &[], 99, LinesEnd::ReadFault, "one\n"),
    (
        "one\ntwo\nthree\n",
        &[],
        &[2],
        99,
        LinesEnd::WriteFault,
        "one\n",
    ),
    (
        "one\ntwo\nthree\n",
        &[],
        &[],
        6,
        LinesEnd::WriteFault,
        "one\ntw",
    ),
    ("full\none\n", &[], &[], 3, LinesEnd::WriteFault, "mem"),
    ("bye\n", &[], &[1], 99, LinesEnd::WriteFault, ""),
];

/// How many bytes stand in front of what ends a line, that end, how the session ends, and how many bytes are written.
const LONG_TALKS: &[(usize, &str, LinesEnd, usize)] = &[
    (8_191, "\n", LinesEnd::Ended, 8_192),
    (8_192, "\n", LinesEnd::Ended, 8_193),
    (8_191, "\r\n", LinesEnd::Ended, 8_192),
    (8_192, "\r\n", LinesEnd::LongLine, 0),
    (8_193, "\n", LinesEnd::LongLine, 0),
    (8_193, "", LinesEnd::LongLine, 0),
    (8_192, "", LinesEnd::Ended, 0),
    (20_000, "\n", LinesEnd::LongLine, 0),
];

/// So many bytes, and then the end.
fn long_line(alloc: Global, count: usize, end: &str) -> Result<Vec<u8>, NoMemory> {
    let mut line = Vec::new(alloc);
    for _ in 0..count {
        line.push(b'x')?;
    }
    line.extend_from_slice(end.as_bytes())?;
    Ok(line)
}

#[test]
fn answers_lines(rt: HostRuntime) -> Result<(), Fail> {
    let mut room = LineRoom::new(rt.alloc())?;
    for (input, reads, writes, space, end, written) in TALKS {
        let mut link = MemLink::new(rt.alloc(), input.as_bytes(), *space, reads, writes)?;
        let ended = serve_lines(&rt, rt.alloc(), &mut link, &mut Echo, &mut room);
        assert!(rt;
            ended == *end && link.written() == written.as_bytes(),
            "at {input}"
        );
    }
    Ok(())
}

#[test]
fn bounds_lines(rt: HostRuntime) -> Result<(), Fail> {
    let mut room = LineRoom::new(rt.alloc())?;
    for (count, end_of_line, end, written) in LONG_TALKS {
        let input = long_line(rt.alloc(), *count, end_of_line)?;
        let mut link = MemLink::new(rt.alloc(), &input, 30_000, &[], &[])?;
        let ended = serve_lines(&rt, rt.alloc(), &mut link, &mut Echo, &mut room);
        assert!(rt;
            ended == *end && link.written().len() == *written,
            "at {count}"
        );
    }
    Ok(())
}

#[test]
fn never_ends_by_a_fault(rt: HostRuntime) -> Result<(), Fail> {
    let mut room = LineRoom::new(rt.alloc())?;
    let mut link = SureLink::new(rt.alloc(), b"one\nbye\ntwo\n")?;
    let ended = serve_lines(&rt, rt.alloc(), &mut link, &mut Echo, &mut room);
    assert!(rt; ended == LinesEnd::Bye);
    let ended = serve_lines(&rt, rt.alloc(), &mut link, &mut Echo, &mut room);
    assert!(rt; ended == LinesEnd::Ended);
    Ok(())
}
