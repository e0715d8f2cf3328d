//! A text that is written at once.

ghost use Rattle.std.specs.Prelude.{◌≡◌, ◌⊎◌, [], ◌∷◌};
ghost use Rattle.grid_out.specs.Sink.{Hands};
ghost use Rattle.room_plain.specs.Run.{Writes};

use grid_out::Sink;
use room_base::Status;

/// Writes the text that was asked for.
pub(crate) fn tell<K: Sink>(text: &[u8], out: &mut K) -> Status
    ensures writes { ((result ≡ Status.Ok) × Writes Status.Ok (K.written out.old) (K.written out.new) (K.faults out.old) (K.faults out.new) text.now)
        ⊎ ((result ≡ Status.WriteFault) × Writes Status.WriteFault (K.written out.old) (K.written out.new) (K.faults out.old) (K.faults out.new) text.now) }
    ensures hands { Hands (K.handed out.old) (K.handed out.new) (text.now ∷ []) }
{
    match out.write_all(text) {
        Ok(()) => Status::Ok,
        Err(_) => Status::WriteFault,
    }
}
