//! Texts in short, and what they say.

use cim_words::{NoMemory, Statements};
use difference::{DiffFault, read};
use nt_text::{NtFault, read_document};
use room_words::{Difference, StageWord};
use std::alloc::Global;

/// A text in full: `~51>` is the identifier that ends in 51, ` a ` the type, and `<:` begins a name of the CIM.
pub(crate) fn full(alloc: Global, short: &str) -> Result<String, NoMemory> {
    let named = short.replace(alloc, "~", "<urn:uuid:00000000-0000-4000-8000-0000000000")?;
    let typed = named.replace(
        alloc,
        " a ",
        " <http://www.w3.org/1999/02/22-rdf-syntax-ns#type> ",
    )?;
    typed.replace(alloc, "<:", "<http://iec.ch/TC57/CIM100#")
}

/// The statements of a document without headings.
pub(crate) fn statements(alloc: Global, short: &str) -> Result<Statements, NtFault> {
    let text = full(alloc, short)?;
    if text.len() > 1_000_000_000 {
        return Err(NtFault::NoMemory);
    }
    read_document(alloc, text.as_bytes())
}

/// What a document says: how many statements stand in its four lists, or the line that is at fault and why.
#[derive(Clone, Copy, Debug, Drop, PartialEq, Eq)]
pub(crate) enum Says {
    Lists(usize, usize, usize, usize),
    Fault(u32, StageWord),
}

fn lists_of(difference: &Difference) -> Says {
    Says::Lists(
        difference.header().len(),
        difference.pre().len(),
        difference.rev().len(),
        difference.fwd().len(),
    )
}

/// What the bytes of a document say, as they are read.
pub(crate) fn said(alloc: Global, document: &[u8]) -> Result<Says, NoMemory> {
    match read(alloc, document) {
        Ok(difference) => Ok(lists_of(&difference)),
        Err(DiffFault::Stage(fault)) => Ok(Says::Fault(fault.line, fault.word)),
        Err(DiffFault::NoMemory) => Err(NoMemory),
    }
}
