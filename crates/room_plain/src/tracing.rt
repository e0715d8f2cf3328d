//! The trace of a base.

ghost use Rattle.std.specs.Prelude.{◌≡◌, IfErr, IfOk};
ghost use Rattle.cim_model.specs.Profile.{IsFaultless};
ghost use Rattle.link_rules.specs.Map.{IsMap};
ghost use Rattle.room_base.specs.Refusal.{IfRefusal};
ghost use Rattle.room_plain.specs.Run.{IsTraced, RefusesTrace};
ghost use Rattle.room_words.specs.Overlay.{no_overlay};

use crate::trace_text::write_trace;
use cim_model::the_empty_overlay_stands;
use cim_records::Index;
use cim_words::{Id, NoMemory, PhaseSet};
use feeder_trace::{NoSuch, Tracer};
use graph_pages::Graph;
use room_base::{Failure, TaskRefusal};
use room_words::Overlay;
use statement_set::StatementSet;
use std::alloc::Global;
use std::marker::Brand;
use std::sync::ledger::{Blank, Ledger};
use step_count::Steps;
use topology::{rebuild, walks_are_reach};

/// The text of a trace of a base from a piece of its equipment.
pub(crate) fn trace_of(
    alloc: Global,
    set: &StatementSet,
    source: Id,
    phases: PhaseSet,
) -> Result<Vec<u8>, Failure<TaskRefusal>>
    requires { IsFaultless set.now }
    ensures traced { IfOk result (λ text. IsTraced set.now source.number phases text.items) }
    ensures refused { IfErr result (λ failure. IfRefusal failure (RefusesTrace set.now source.number)) }
{
    let index = Index::build(alloc, set)?;
    let graph = graph_of::<Brand>(alloc, &index, Blank::new(1))?;
    let mut tracer = Tracer::reserve(alloc, &graph)?;
    the_empty_overlay_stands();
    walks_are_reach();
    match tracer.trace(&graph, source, phases) {
        Ok(()) => Ok(write_trace(alloc, &tracer)?),
        Err(NoSuch) => Err(Failure::Refusal(TaskRefusal::Asked)),
    }
}

/// The graph of an untouched network. Nobody counts its steps.
fn graph_of<L: Ledger>(alloc: Global, index: &Index, blank: Blank) -> Result<Graph, NoMemory>
    requires name { blank.name ≡ L.name }
    requires parts { blank.parts ≡ L.parts }
    requires some { blank.parts ≡ 1 }
    ensures { IfOk result (IsMap index.now no_overlay) }
{
    the_empty_overlay_stands();
    let mut steps = Steps::<L>::of(blank);
    let overlay = Overlay::empty(alloc);
    rebuild(alloc, index, &overlay, &mut steps)
}
