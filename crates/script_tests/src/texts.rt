//! Texts in short.

use cim_words::NoMemory;
use std::alloc::Global;

/// A base in full: `~51>` is the identifier that ends in 51, ` a ` the type, and `<:` begins a name of the CIM.
pub(crate) fn base(alloc: Global, short: &str) -> Result<String, NoMemory> {
    let named = short.replace(alloc, "~", "<urn:uuid:00000000-0000-4000-8000-0000000000")?;
    let typed = named.replace(
        alloc,
        " a ",
        " <http://www.w3.org/1999/02/22-rdf-syntax-ns#type> ",
    )?;
    typed.replace(alloc, "<:", "<http://iec.ch/TC57/CIM100#")
}

/// A script or its replies in full: `~51` is the identifier that ends in 51, and statements of documents are those of a base.
pub(crate) fn lines(alloc: Global, short: &str) -> Result<String, NoMemory> {
    let stated = short.replace(alloc, "<~", "<urn:uuid:00000000-0000-4000-8000-0000000000")?;
    let named = stated.replace(alloc, "~", "00000000-0000-4000-8000-0000000000")?;
    let typed = named.replace(
        alloc,
        " a ",
        " <http://www.w3.org/1999/02/22-rdf-syntax-ns#type> ",
    )?;
    typed.replace(alloc, "<:", "<http://iec.ch/TC57/CIM100#")
}
