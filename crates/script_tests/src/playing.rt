//! Scripts, played over a base in short.

ghost use Rattle.std.specs.Prelude.{IfOk};
ghost use Rattle.cim_model.specs.Profile.{IsFaultless};

use crate::texts::base;
use cim_profile::first_break;
use grid_out::MemSink;
use nt_text::read_document;
use script::{OutFault, play};
use statement_set::StatementSet;
use std::alloc::Global;
use std::test::Fail;

/// The bytes for which an output has room.
const ROOM: usize = 200_000;

/// The statements of a base in short, which breaks no rule.
pub(crate) fn statements(alloc: Global, short: &str) -> Result<StatementSet, Fail>
    ensures { IfOk result IsFaultless }
{
    let text = base(alloc, short)?;
    if text.len() > 1_000_000 {
        return Err(Fail::new("a long base"));
    }
    let set = StatementSet::from_list(alloc, read_document(alloc, text.as_bytes())?)?;
    match first_break(alloc, &set)? {
        None => Ok(set),
        Some(found) => Err(Fail::new(found.rule)),
    }
}

/// What a script is answered over a base in short.
pub(crate) fn answers(alloc: Global, short: &str, script: &[u8]) -> Result<String, Fail> {
    let mut out = MemSink::new(alloc, ROOM, &[])?;
    match play(alloc, statements(alloc, short)?, script, &mut out) {
        Ok(()) => text_of(alloc, out.written()),
        Err(OutFault::WriteFault) => Err(Fail::new("a full output")),
        Err(OutFault::NoMemory) => Err(Fail::new("no memory")),
    }
}

/// Bytes as text.
pub(crate) fn text_of(alloc: Global, bytes: &[u8]) -> Result<String, Fail> {
    match str::from_utf8(bytes) {
        Ok(text) => Ok(String::from_str(alloc, text)?),
        Err(_) => Err(Fail::new("replies that are no text")),
    }
}
