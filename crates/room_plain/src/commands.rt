//! The commands, each in a file of its own, over the files that were read.

ghost use Rattle.std.specs.Prelude.{◌≡◌, ◌≤◌, length, IfOk, IfErr, IsSome, OnErr};
ghost use Rattle.room_base.specs.Base.{base_limit};
ghost use Rattle.room_base.specs.Refusal.{IfRefusal};
ghost use Rattle.room_plain.specs.Ending.{IsTold, IsUntold};
ghost use Rattle.room_plain.specs.Contents.{further_contents};
ghost use Rattle.history_writer.specs.Sending.{output};

mod check;
mod play;
mod trace;

use crate::commands::check::tell_check;
use crate::commands::play::play_script;
use crate::commands::trace::tell_trace;
use crate::files::Contents;
use crate::task::Task;
use grid_out::Sink;
use room_base::{Failure, Refusal, Status, read_base};
use std::alloc::Global;

/// Writes what a task tells of the files.
pub(crate) fn perform<K: Sink>(
    alloc: Global,
    contents: Contents,
    task: Task,
    out: &mut K,
) -> Result<Status, Failure<Refusal>>
    requires fits { length contents.base.items ≤ base_limit }
    requires files { task ≡ Task.Play → IsSome contents.script }
    ensures told { IfOk result (λ status. IsTold contents.base.items task (further_contents contents) status
        (output (K.written out.old) (K.faults out.old) (K.handed out.old)) (output (K.written out.new) (K.faults out.new) (K.handed out.new))) }
    ensures untold { IfErr result (λ failure. IfRefusal failure (IsUntold contents.base.items task)) }
    ensures untouched { OnErr result (output (K.written out.new) (K.faults out.new) (K.handed out.new) ≡ output (K.written out.old) (K.faults out.old) (K.handed out.old)) }
{
    let Contents { base, script } = contents;
    let set = read_base(alloc, base)?;
    match task {
        Task::Check => Ok(tell_check(alloc, &set, out)?),
        Task::Trace { source, phases } => Ok(tell_trace(alloc, &set, source, phases, out)?),
        Task::Play => Ok(play_script(alloc, set, &script.unwrap(), out)),
    }
}
