//! The history of a version, written entry by entry.

ghost use Rattle.std.specs.Prelude.{◌≡◌, ◌++◌, ◌∷◌, [], List, ℕ, codes, IfErr, OnOk};
ghost use Rattle.std.specs.Fmt.{decimal};
ghost use Rattle.cim_words.specs.Written.{line_feed};
ghost use Rattle.history_writer.specs.Sending.{Sends, StopsAt, output};
ghost use Rattle.wire.specs.Entries.{history_text};

use crate::fault::OutFault;
use crate::output::{flush, flush_full};
use board::Dated;
use cim_words::NoMemory;
use desk::Advance;
use grid_out::Sink;
use versions::Version;
use wire::write_entry;

/// Writes the history of a version behind a text that was kept back, entry by entry.
///
/// It goes to the output in pieces, as it comes; after a fault a front of text and history was handed on.
pub fn write_history<K: Sink>(newest: &Version, kept: Vec<u8>, out: &mut K) -> Result<(), OutFault>
    // The output took all of it, without a fault.
    ensures ok { OnOk result (Sends (output (K.written out.old) (K.faults out.old) (K.handed out.old)) (output (K.written out.new) (K.faults out.new) (K.handed out.new)) (kept.items ++ history_text newest.now.log)) }

    // A front of it was handed on: the output failed within that, or took it before memory ended.
    ensures fault { IfErr result (λ fault. (front more : List ℕ) × (front ++ more ≡ kept.items ++ history_text newest.now.log)
        × StopsAt fault (output (K.written out.old) (K.faults out.old) (K.handed out.old)) (output (K.written out.new) (K.faults out.new) (K.handed out.new)) front) }
{
    let mut text = kept;
    let entries = newest.number();
    write_head(entries, &mut text)?;
    for index in 0..entries {
        write_entry(index + 1, newest.entry(index), &mut text)?;
        flush_full(&mut text, out)?;
    }
    flush(&mut text, out)?;
    Ok(())
}

/// Appends the first line of a history, which says how many entries follow.
fn write_head(entries: u32, into: &mut Vec<u8>) -> Result<(), NoMemory>
    ensures { OnOk result (into.new.items ≡ into.old.items ++ (codes "history " ++ decimal entries ++ line_feed ∷ [])) }
{
    let alloc = *into.allocator();
    into.extend_from_slice(b"history ")?;
    into.extend_from_slice(entries.to_string(alloc)?.as_bytes())?;
    into.push(b'\n')?;
    Ok(())
}
