//! The links in memory.

use grid_out::{Failed, Link, MemLink, SureLink};
use std::test::Fail;

/// The answers of the reads of `abcde` into a space of two bytes, of which the second fails, and what each gives.
const READS: &[(Result<usize, Failed>, &str)] = &[
    (Ok(2), "ab"),
    (Err(Failed), ""),
    (Ok(2), "cd"),
    (Ok(1), "e"),
    (Ok(0), ""),
    (Ok(0), ""),
];

/// What is written, the answer, and what is then there, of a link with room for six bytes whose second write fails.
const WRITES: &[(&str, Result<(), Failed>, &str)] = &[
    ("ab", Ok(()), "ab"),
    ("cd", Err(Failed), "ab"),
    ("cdefg", Err(Failed), "abcdef"),
    ("", Ok(()), "abcdef"),
];

/// Whether a read into a space of two bytes answers so, and gives these bytes.
fn reads<L: Link>(link: &mut L, answer: Result<usize, Failed>, bytes: &str) -> bool {
    let mut into = [0; 2];
    let given = link.read(&mut into);
    match given {
        Ok(count) => given == answer && &into[..count] == bytes.as_bytes(),
        Err(_) => given == answer,
    }
}

#[test]
fn reads_what_is_left(rt: HostRuntime) -> Result<(), Fail> {
    let mut link = MemLink::new(rt.alloc(), b"abcde", 0, &[2], &[])?;
    for (answer, bytes) in READS {
        let right = reads(&mut link, *answer, bytes);
        assert!(rt; right, "at {bytes}");
    }
    Ok(())
}

#[test]
fn writes_to_its_peer(rt: HostRuntime) -> Result<(), Fail> {
    let mut link = MemLink::new(rt.alloc(), b"", 6, &[], &[2])?;
    for (piece, answer, written) in WRITES {
        let right = link.write(piece.as_bytes()) == *answer;
        assert!(rt; right && link.written() == written.as_bytes(), "at {piece}");
    }
    Ok(())
}

#[test]
fn never_fails(rt: HostRuntime) -> Result<(), Fail> {
    let mut link = SureLink::new(rt.alloc(), b"abc")?;
    assert!(rt; reads(&mut link, Ok(2), "ab"));
    assert!(rt; reads(&mut link, Ok(1), "c"));
    assert!(rt; reads(&mut link, Ok(0), ""));
    assert!(rt; link.write(b"abc") == Ok(()));
    Ok(())
}
