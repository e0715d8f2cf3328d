//! The command `check BASE`.

ghost use Rattle.std.specs.Prelude.{◌≡◌, ℕ, List, IfOk, OnErr};
ghost use Rattle.room_plain.specs.Ending.{IsDone};
ghost use Rattle.room_plain.specs.declared.task.Task.TheVariants.{Check};
ghost use Rattle.history_writer.specs.Sending.{output};

use crate::check_text::write_check;
use crate::telling::tell;
use cim_words::NoMemory;
use grid_out::Sink;
use room_base::Status;
use statement_set::StatementSet;
use std::alloc::Global;

/// Tells how many different statements a base has.
pub(crate) fn tell_check<K: Sink>(
    alloc: Global,
    set: &StatementSet,
    out: &mut K,
) -> Result<Status, NoMemory>
    ensures told { IfOk result (λ status. (contents : List (List ℕ)) → IsDone Check set.now contents status
        (output (K.written out.old) (K.faults out.old) (K.handed out.old)) (output (K.written out.new) (K.faults out.new) (K.handed out.new))) }
    ensures untouched { OnErr result (output (K.written out.new) (K.faults out.new) (K.handed out.new) ≡ output (K.written out.old) (K.faults out.old) (K.handed out.old)) }
{
    let text = write_check(alloc, set.len())?;
    Ok(tell(&text, out))
}
