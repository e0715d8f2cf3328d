//! The command `script BASE SCRIPT`.

ghost use Rattle.std.specs.Prelude.{[], ◌∷◌};
ghost use Rattle.cim_model.specs.Profile.{IsFaultless};
ghost use Rattle.room_plain.specs.Ending.{IsDone};
ghost use Rattle.room_plain.specs.declared.task.Task.TheVariants.{Play};
ghost use Rattle.history_writer.specs.Sending.{output};

use grid_out::Sink;
use room_base::Status;
use script::{OutFault, play};
use statement_set::StatementSet;
use std::alloc::Global;

/// Plays a script over a base.
pub(crate) fn play_script<K: Sink>(
    alloc: Global,
    set: StatementSet,
    script: &[u8],
    out: &mut K,
) -> Status
    requires { IsFaultless set }
    ensures { IsDone Play set (script.now ∷ []) result
        (output (K.written out.old) (K.faults out.old) (K.handed out.old)) (output (K.written out.new) (K.faults out.new) (K.handed out.new)) }
{
    match play(alloc, set, script, out) {
        Ok(()) => Status::Ok,
        Err(OutFault::WriteFault) => Status::WriteFault,
        Err(OutFault::NoMemory) => Status::NoMemory,
    }
}
