//! Runs over content and an output in memory.

use cim_words::NoMemory;
use grid_out::{Files, MemShelf, MemSink};
use room_plain::{Status, run_plain};
use std::alloc::Global;

/// All but the last two digits of the identifiers of the small bases.
pub(crate) const ID_BEGIN: &str = "00000000-0000-4000-8000-0000000000";

/// Appends pieces of text, one behind another.
pub(crate) fn push_pieces(text: &mut String, pieces: &[&str]) -> Result<(), NoMemory> {
    for piece in pieces {
        text.push_str(piece)?;
    }
    Ok(())
}

/// The text with `~` for all but the last two digits of an identifier.
pub(crate) fn identified(alloc: Global, short: &str) -> Result<String, NoMemory> {
    short.replace(alloc, "~", ID_BEGIN)
}

/// The text with `~` for all but the last two digits of an identifier and `/` for a line feed.
pub(crate) fn spelled(alloc: Global, short: &str) -> Result<String, NoMemory> {
    identified(alloc, short)?.replace(alloc, "/", "\n")
}

pub(crate) fn words(alloc: Global, command: &str) -> Result<Vec<String>, NoMemory> {
    let text = spelled(alloc, command)?;
    let mut words = Vec::new(alloc);
    for word in text.as_str().split(' ') {
        words.push(String::from_str(alloc, word)?)?;
    }
    Ok(words)
}

/// Whether a command over a shelf ends so and writes this text.
pub(crate) fn ends(
    alloc: Global,
    shelf: &mut MemShelf,
    mut out: MemSink,
    command: &str,
    status: Status,
    text: &[u8],
) -> Result<bool, NoMemory> {
    let given = run_plain(alloc, &words(alloc, command)?, shelf, &mut out);
    Ok(given == status && out.written() == text)
}

/// Whether a command over one file, `base`, ends so and writes this text.
pub(crate) fn writes(
    alloc: Global,
    base: &[u8],
    command: &str,
    status: Status,
    text: &[u8],
) -> Result<bool, NoMemory> {
    let mut files = Files::empty(alloc);
    files.add("base", base)?;
    let mut shelf = MemShelf::new(alloc, files, &[])?;
    let out = MemSink::new(alloc, 4000, &[])?;
    ends(alloc, &mut shelf, out, command, status, text)
}
