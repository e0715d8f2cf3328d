//! The shelves and sinks in memory.

use grid_out::{
    Failed, Files, MemShelf, MemSink, NoMemory, Notes, Shelf, ShelfFault, Sink, SureShelf, SureSink,
};
use std::alloc::Global;
use std::test::Fail;

/// What is asked for within which cap, the answer, and the bytes that are then there.
type Reading = (&'static str, u64, Result<(), ShelfFault>, &'static str);

/// Readings of a shelf whose third call fails.
const READINGS: &[Reading] = &[
    ("base", 9, Ok(()), "abc"),
    ("other", 9, Err(ShelfFault::Failed), ""),
    ("base", 2, Err(ShelfFault::Failed), ""),
    ("base", 2, Err(ShelfFault::Longer), ""),
    ("base", 3, Ok(()), "abc"),
];

const ASKED: &[&str] = &["base", "other", "base", "base", "base"];

/// Readings of a shelf that never fails.
const SURE_READINGS: &[Reading] = &[
    ("base", 3, Ok(()), "abc"),
    ("base", 2, Err(ShelfFault::Longer), ""),
    ("other", 0, Ok(()), ""),
];

const SURE_ASKED: &[&str] = &["base", "base", "other"];

/// What is written, the answer, and what is then there, of an output with room for six bytes whose second call fails.
const WRITINGS: &[(&str, Result<(), Failed>, &str)] = &[
    ("ab", Ok(()), "ab"),
    ("cd", Err(Failed), "ab"),
    ("cd", Ok(()), "abcd"),
    ("ef", Ok(()), "abcdef"),
    ("g", Err(Failed), "abcdef"),
    ("", Ok(()), "abcdef"),
];

const HANDED: &[&str] = &["ab", "cd", "cd", "ef", "g", ""];

/// Whether these texts are told, and no others.
fn are(notes: &Notes, texts: &[&str]) -> bool {
    let Some(all) = notes.all() else {
        return false;
    };
    if all.len() != texts.len() {
        return false;
    }
    for (note, text) in all.iter().zip(texts) {
        if note.as_bytes() != text.as_bytes() {
            return false;
        }
    }
    true
}

/// Whether a shelf answers so, and reads so into what was read before.
fn reads<F: Shelf>(shelf: &mut F, into: &mut Vec<u8>, reading: &Reading) -> bool {
    let (name, cap, answer, bytes) = *reading;
    shelf.read_whole(name, cap, into) == answer && into.as_slice() == bytes.as_bytes()
}

fn write<K: Sink>(sink: &mut K, piece: &str) -> Result<(), Failed> {
    sink.write_all(piece.as_bytes())
}

/// The file `base`, and another of its name.
fn two_files(alloc: Global) -> Result<Files, NoMemory> {
    let mut files = Files::empty(alloc);
    files.add("base", b"abc")?;
    files.add("base", b"later")?;
    Ok(files)
}

#[test]
fn reads_by_name(rt: HostRuntime) -> Result<(), Fail> {
    let mut shelf = MemShelf::new(rt.alloc(), two_files(rt.alloc())?, &[3])?;
    let mut into = Vec::from_slice(rt.alloc(), b"old")?;
    for reading in READINGS {
        let right = reads(&mut shelf, &mut into, reading);
        assert!(rt; right, "within {}", reading.1);
    }
    assert!(rt; are(shelf.asked(), ASKED));
    Ok(())
}

#[test]
fn writes_up_to_its_room(rt: HostRuntime) -> Result<(), Fail> {
    let mut sink = MemSink::new(rt.alloc(), 6, &[2])?;
    for (piece, answer, written) in WRITINGS {
        let right = write(&mut sink, piece) == *answer;
        assert!(rt; right && sink.written() == written.as_bytes(), "at {piece}");
    }
    assert!(rt; are(sink.handed(), HANDED));
    Ok(())
}

#[test]
fn fills_its_room(rt: HostRuntime) -> Result<(), Fail> {
    let mut sink = MemSink::new(rt.alloc(), 3, &[])?;
    assert!(rt; write(&mut sink, "abcd") == Err(Failed));
    assert!(rt; sink.written() == b"abc".as_slice());
    Ok(())
}

#[test]
fn never_fails(rt: HostRuntime) -> Result<(), Fail> {
    let mut shelf = SureShelf::new(two_files(rt.alloc())?);
    let mut into = Vec::from_slice(rt.alloc(), b"old")?;
    for reading in SURE_READINGS {
        let right = reads(&mut shelf, &mut into, reading);
        assert!(rt; right, "within {}", reading.1);
    }
    assert!(rt; are(shelf.asked(), SURE_ASKED));
    assert!(rt; write(&mut SureSink::new(), "abc") == Ok(()));
    Ok(())
}
