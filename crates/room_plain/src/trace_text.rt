//! The text of a trace.

ghost use Rattle.std.specs.Prelude.{◌≡◌, IfOk};
ghost use Rattle.room_words.specs.TraceText.{trace_text};

use cim_words::NoMemory;
use feeder_trace::Tracer;
use room_words::{write_trace_head, write_trace_row};
use std::alloc::Global;

/// The text of a trace of a base alone: its first line, and each row on a line of its own.
#[tactic(auto, unfolding(room_words::specs::TraceText::trace_text))]
pub(crate) fn write_trace(alloc: Global, tracer: &Tracer) -> Result<Vec<u8>, NoMemory>
    ensures { IfOk result (λ text. text.items ≡ trace_text 0 tracer.now.rows) }
{
    let mut text = Vec::new(alloc);
    write_trace_head(0, tracer.count(), &mut text)?;
    for index in 0..tracer.count() {
        write_trace_row(tracer.reached(index), &mut text)?;
    }
    Ok(text)
}
