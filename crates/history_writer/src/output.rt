//! Text that is kept back, and handed to the output in pieces.

ghost use Rattle.std.specs.Prelude.{◌≡◌, ◌<◌, ◌++◌, [], List, ℕ, length, OnErr, OnOk};
ghost use Rattle.history_writer.specs.Sending.{Breaks, Sends, output, piece_bytes};

use grid_out::{Failed, Sink};

/// How many bytes are kept back before they are handed on.
const PIECE: usize = 65_536;

/// Hands on what was kept back, where that is 65,536 bytes or more. After `Failed` all of it is still kept.
pub fn flush_full<K: Sink>(text: &mut Vec<u8>, out: &mut K) -> Result<(), Failed>
    ensures ok { OnOk result ((sent : List ℕ) × (text.old.items ≡ sent ++ text.new.items)
        × Sends (output (K.written out.old) (K.faults out.old) (K.handed out.old)) (output (K.written out.new) (K.faults out.new) (K.handed out.new)) sent) }
    ensures failed { OnErr result (Breaks (output (K.written out.old) (K.faults out.old) (K.handed out.old)) (output (K.written out.new) (K.faults out.new) (K.handed out.new)) text.old.items) }

    // What is kept back then is short.
    ensures short { OnOk result (length text.new.items < piece_bytes) }
    ensures kept { OnErr result (text.new.items ≡ text.old.items) }

    // Where it was short before, nothing is handed on.
    ensures waits { length text.old.items < piece_bytes → (text.new.items ≡ text.old.items)
        × (output (K.written out.new) (K.faults out.new) (K.handed out.new) ≡ output (K.written out.old) (K.faults out.old) (K.handed out.old)) }
{
    if text.len() < PIECE {
        return Ok(());
    }
    flush(text, out)
}

/// Hands on what was kept back, all at once. After `Failed` all of it is still kept.
pub fn flush<K: Sink>(text: &mut Vec<u8>, out: &mut K) -> Result<(), Failed>
    ensures ok { OnOk result (Sends (output (K.written out.old) (K.faults out.old) (K.handed out.old)) (output (K.written out.new) (K.faults out.new) (K.handed out.new)) text.old.items) }
    ensures empty { OnOk result (text.new.items ≡ []) }
    ensures failed { OnErr result (Breaks (output (K.written out.old) (K.faults out.old) (K.handed out.old)) (output (K.written out.new) (K.faults out.new) (K.handed out.new)) text.old.items) }
    ensures kept { OnErr result (text.new.items ≡ text.old.items) }
{
    out.write_all(text)?;
    text.clear();
    Ok(())
}
