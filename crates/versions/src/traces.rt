//! Traces of a version.

ghost use Rattle.std.specs.Prelude.{◌≡◌, ◌++◌, ℕ, List, Err, IfOk, OnErr, OnOk};
ghost use Rattle.room_words.specs.TraceText.{trace_text};
ghost use Rattle.versions.specs.Traced.{HasNoSource, IsTraceOf};
ghost use Rattle.versions.specs.declared.traces.TraceNo.TheVariants.{NoSuch as no_such};

use crate::version::Version;
use board::Dated;
use cim_words::{Id, NoMemory, PhaseSet};
use feeder_trace::{NoSuch, Tracer};
use room_words::{write_trace_head, write_trace_row};
use std::alloc::Global;
use thiserror::Error;
use topology::walks_are_reach;

/// Why there is no trace.
#[derive(Clone, Copy, Debug, PartialEq, Eq, Error)]
pub enum TraceNo {
    /// The source is no equipment of the model and no item on it.
    #[error("no such equipment or item")]
    NoSuch,
    /// Memory did not suffice.
    #[error("out of memory")]
    NoMemory,
}

impl From<NoMemory> for TraceNo {
    ghost use Rattle.std.specs.Prelude.{◌≡◌};
    ghost use Rattle.versions.specs.declared.traces.TraceNo.TheVariants.{NoMemory as no_memory};

    ghost from_gives = { λ _ no. no ≡ no_memory };

    fn from(_error: NoMemory) -> TraceNo {
        TraceNo::NoMemory
    }
}

impl Version {
    /// Appends the text of a trace from a piece of equipment or an item, in some phases, through the network of this version.
    pub fn trace_text(
        &self,
        alloc: Global,
        start: Id,
        phases: PhaseSet,
        into: &mut Vec<u8>,
    ) -> Result<(), TraceNo>
        ensures ok { OnOk result ((text : List ℕ) × (into.new.items ≡ into.old.items ++ text) × IsTraceOf self.now start.number phases text) }
        ensures no_such { result ≡ Err no_such → HasNoSource self.now start.number }
        ensures kept { OnErr result (into.new.items ≡ into.old.items) }
    {
        let graph = &self.held.graph;
        let mut tracer = Tracer::reserve(alloc, graph)?;
        walks_are_reach();
        match tracer.trace(graph, start, phases) {
            Ok(()) => {
                let text = text_of(alloc, self.number(), &tracer)?;
                into.extend_from_slice(&text)?;
                Ok(())
            }
            Err(NoSuch) => Err(TraceNo::NoSuch),
        }
    }
}

/// The text of what was traced: its first line, and each row on a line of its own.
#[tactic(auto, unfolding(room_words::specs::TraceText::trace_text))]
fn text_of(alloc: Global, at: u32, tracer: &Tracer) -> Result<Vec<u8>, NoMemory>
    ensures { IfOk result (λ text. text.items ≡ trace_text at tracer.now.rows) }
{
    let mut text = Vec::new(alloc);
    write_trace_head(at, tracer.count(), &mut text)?;
    for index in 0..tracer.count() {
        write_trace_row(tracer.reached(index), &mut text)?;
    }
    Ok(text)
}
