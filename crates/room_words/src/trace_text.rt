//! The lines of a trace.

ghost use Rattle.std.specs.Prelude.{◌≡◌, ◌++◌, OnOk};
ghost use Rattle.room_words.specs.TraceText as spec;

use cim_words::{Id, NoMemory, PhaseSet};

/// Appends the first line of a trace: how many entries the prefix has, and how many rows there are. Where memory ends, a front of the
/// line may stand there.
pub fn write_trace_head(at: u32, count: usize, into: &mut Vec<u8>) -> Result<(), NoMemory>
    ensures { OnOk result (into.new.items ≡ into.old.items ++ spec.trace_head at count) }
{
    let alloc = *into.allocator();
    into.extend_from_slice(b"trace ")?;
    into.extend_from_slice(at.to_string(alloc)?.as_bytes())?;
    into.push(b' ')?;
    into.extend_from_slice(count.to_string(alloc)?.as_bytes())?;
    into.push(b'\n')?;
    Ok(())
}

/// Appends the line of what is reached, with the phases in which it is. Where memory ends, a front of the line may stand there.
pub fn write_trace_row(row: (Id, PhaseSet), into: &mut Vec<u8>) -> Result<(), NoMemory>
    ensures { OnOk result (into.new.items ≡ into.old.items ++ spec.trace_row row) }
{
    let (id, phases) = row;
    into.extend_from_slice(&id.text())?;
    into.push(b' ')?;
    phases.write_text(into)?;
    into.push(b'\n')?;
    Ok(())
}
