//! The command `trace BASE SOURCE PHASES`.

ghost use Rattle.std.specs.Prelude.{◌≡◌, ℕ, List, IfOk, IfErr, OnErr};
ghost use Rattle.cim_model.specs.Profile.{IsFaultless};
ghost use Rattle.room_base.specs.Refusal.{IfRefusal};
ghost use Rattle.room_plain.specs.Ending.{IsDone};
ghost use Rattle.room_plain.specs.Run.{RefusesTrace};
ghost use Rattle.room_plain.specs.declared.task.Task.TheVariants.{Trace};
ghost use Rattle.history_writer.specs.Sending.{output};

use crate::telling::tell;
use crate::tracing::trace_of;
use cim_words::{Id, PhaseSet};
use grid_out::Sink;
use room_base::{Failure, Status, TaskRefusal};
use statement_set::StatementSet;
use std::alloc::Global;

/// Tells which equipment of a base is reachable from a piece of it.
pub(crate) fn tell_trace<K: Sink>(
    alloc: Global,
    set: &StatementSet,
    source: Id,
    phases: PhaseSet,
    out: &mut K,
) -> Result<Status, Failure<TaskRefusal>>
    requires { IsFaultless set.now }
    ensures told { IfOk result (λ status. (contents : List (List ℕ)) → IsDone (Trace source phases) set.now contents status
        (output (K.written out.old) (K.faults out.old) (K.handed out.old)) (output (K.written out.new) (K.faults out.new) (K.handed out.new))) }
    ensures refused { IfErr result (λ failure. IfRefusal failure (RefusesTrace set.now source.number)) }
    ensures untouched { OnErr result (output (K.written out.new) (K.faults out.new) (K.handed out.new) ≡ output (K.written out.old) (K.faults out.old) (K.handed out.old)) }
{
    let text = trace_of(alloc, set, source, phases)?;
    Ok(tell(&text, out))
}
