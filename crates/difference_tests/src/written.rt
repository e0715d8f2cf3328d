//! The text that is written for a difference, byte by byte, and read again.

use crate::texts::{Says, full, said};
use cim_words::NoMemory;
use difference::{DiffFault, read, write};
use std::alloc::Global;
use std::test::Fail;

/// Documents in short, and the text that is written for what they say.
const WRITTEN: &[(&str, &str)] = &[
    (
        "%end",
        "%header\n%preconditions\n%reverse\n%forward\n%end\n",
    ),
    (
        "%preconditions\r\n<x#_00000000-0000-4000-8000-000000000051> a <:ACLineSegment> .\r\n%reverse \t\n~51><:Conductor.length>\"100\"^^<d>. # as it was\n%forward\n~51> <:Conductor.length> \"10\\u0031\"@en .\n\n~51> <p> <a\\u003Cb> .\n~51> <p> <a\\u003cb> .\n%end ",
        "%header\n%preconditions\n<urn:uuid:00000000-0000-4000-8000-000000000051> <http://www.w3.org/1999/02/22-rdf-syntax-ns#type> <http://iec.ch/TC57/CIM100#ACLineSegment> .\n%reverse\n<urn:uuid:00000000-0000-4000-8000-000000000051> <http://iec.ch/TC57/CIM100#Conductor.length> \"100\" .\n%forward\n<urn:uuid:00000000-0000-4000-8000-000000000051> <http://iec.ch/TC57/CIM100#Conductor.length> \"101\" .\n<urn:uuid:00000000-0000-4000-8000-000000000051> <p> <a\\u003Cb> .\n<urn:uuid:00000000-0000-4000-8000-000000000051> <p> <a\\u003Cb> .\n%end\n",
    ),
    (
        "%header\n~c1> <p> ~C2> .\n~c1> <p> \"a\\tb\\n\" .\n%end\n# nothing else",
        "%header\n<urn:uuid:00000000-0000-4000-8000-0000000000c1> <p> <urn:uuid:00000000-0000-4000-8000-0000000000c2> .\n<urn:uuid:00000000-0000-4000-8000-0000000000c1> <p> \"a\tb\\n\" .\n%preconditions\n%reverse\n%forward\n%end\n",
    ),
];

/// What is written for a document, behind what is there, and how many bytes it has by the difference's size.
fn rewritten(alloc: Global, document: &[u8]) -> Result<(Vec<u8>, u64), DiffFault> {
    let difference = read(alloc, document)?;
    let mut text = Vec::from_slice(alloc, b"> ")?;
    write(&difference, &mut text)?;
    Ok((text, difference.size()))
}

/// Whether a text is written for a document, and whether the same text is written for it again.
fn is_written(alloc: Global, document: &[u8], want: &str) -> Result<bool, DiffFault> {
    let (text, size) = rewritten(alloc, document)?;
    let (again, _) = rewritten(alloc, want.as_bytes())?;
    let behind = ["> ", want].concat(alloc)?;
    Ok(size == want.len() as u64 && text == again && text.as_slice() == behind.as_bytes())
}

fn says_the_same(alloc: Global, document: &[u8], want: &str) -> Result<bool, NoMemory> {
    let says: Says = said(alloc, document)?;
    Ok(says == said(alloc, want.as_bytes())?)
}

#[test]
fn writes_differences(rt: HostRuntime) -> Result<(), Fail> {
    for (short, want) in WRITTEN {
        let document = full(rt.alloc(), short)?;
        assert!(rt;
            is_written(rt.alloc(), document.as_bytes(), want)?,
            "{short}"
        );
        assert!(rt;
            says_the_same(rt.alloc(), document.as_bytes(), want)?,
            "{short}"
        );
    }
    assert!(rt; WRITTEN[0].1.len() == 46);
    Ok(())
}
