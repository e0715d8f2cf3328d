//! How a refusal is told.

ghost use Rattle.std.specs.Prelude.{◌≡◌, ◌≢◌, ◌⊎◌, []};
ghost use Rattle.grid_out.specs.Sink.{Gains, Hands};
ghost use Rattle.room_base.specs.Refusing.{GainsAtMost, pieces_of};
ghost use Rattle.room_base.specs.Status.{line_of, status_of};

use crate::refusal::Refusal;
use crate::refusal_lines::refusal_line;
use crate::status::Status;
use grid_out::Sink;
use std::alloc::Global;

/// Writes the line of a refusal. A line that the output does not take changes nothing.
pub fn refuse<K: Sink>(alloc: Global, refusal: Refusal, out: &mut K) -> Status
    ensures writes { ((result ≡ status_of refusal) × GainsAtMost (K.written out.old) (K.written out.new) (K.faults out.old) (K.faults out.new) (line_of refusal))
        ⊎ ((result ≡ Status.NoMemory) × (refusal ≢ Refusal.ReadFault) × Gains (K.written out.old) (K.written out.new) [] × (K.faults out.new ≡ K.faults out.old)) }
    ensures hands { Hands (K.handed out.old) (K.handed out.new) (pieces_of result (line_of refusal)) }
{
    let Ok(line) = refusal_line(alloc, refusal) else {
        return Status::NoMemory;
    };
    let _ = out.write_all(line.as_bytes());
    Status::from(refusal)
}
