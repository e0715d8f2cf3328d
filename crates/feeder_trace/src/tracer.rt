//! Tracing.

ghost use Rattle.std.specs.Prelude.{◌≡◌, ◌↔◌, ◌*◌, ◌<◌, ◌≤◌, [], length, slice_index_or, None, IfOk, IsErr, OnOk, OnErr};
ghost use Rattle.std.specs.Vec.{vec_capacity};
ghost use Rattle.cim_model.specs.Reach.{IsReached};
ghost use Rattle.cim_model.specs.Trace.{IsTrace};
ghost use Rattle.graph_pages.specs.Graph.{star_of};
ghost use Rattle.graph_pages.specs.Walks.{wiring};

use crate::capacity::times;
use crate::gather::gather;
use crate::hubs::Hubs;
use crate::merge::merge;
use crate::search::Search;
use crate::walk::walk;
use cim_words::{Id, NoMemory, PhaseSet};
use graph_pages::Graph;
use std::alloc::Global;
use std::marker::Model;
use thiserror::Error;

/// The graph has no star of the source.
#[derive(Clone, Copy, Debug, PartialEq, Eq, Error)]
#[error("no such equipment or item")]
pub struct NoSuch;

/// Traces a graph. All memory is taken when it is reserved.
#[derive(Drop)]
pub struct Tracer {
    search: Search,
    hubs: Hubs,
    parts: Vec<(Id, PhaseSet)>,
    rows: Vec<(Id, PhaseSet)>,
}

impl Model for Tracer {
    ghost use Rattle.feeder_trace.specs.Views.{TracerView};

    ghost Value = { TracerView };

    ghost use Rattle.feeder_trace.specs.Reserved.{IsReserved, view_of};

    ghost view = { view_of };

    ghost invariant = { IsReserved };
}

impl Tracer {
    /// A tracer for a graph, with nothing traced.
    pub fn reserve(alloc: Global, graph: &Graph) -> Result<Tracer, NoMemory>
        ensures graph { IfOk result (λ tracer. tracer.graph ≡ graph.now) }
        ensures rows { IfOk result (λ tracer. tracer.rows ≡ []) }
    {
        let search = Search::new(alloc, graph)?;
        Ok(Tracer {
            hubs: Hubs::new(alloc, graph)?,
            parts: room_for_rows(alloc, &search)?,
            rows: room_for_rows(alloc, &search)?,
            search,
        })
    }

    /// Traces from a piece of equipment or an item, in some phases. The graph is the one that the tracer was reserved for.
    pub fn trace(&mut self, graph: &Graph, start: Id, phases: PhaseSet) -> Result<(), NoSuch>
        requires { self.old.graph ≡ graph.now }
        ensures graph { self.new.graph ≡ self.old.graph }
        ensures traced { OnOk result (IsTrace (IsReached (wiring graph.now) start.number phases) self.new.rows) }
        ensures no_such { IsErr result ↔ (star_of graph.now start.number ≡ None) }
        ensures kept { OnErr result (self.new ≡ self.old) }
    {
        let star = graph.star(start).ok_or(NoSuch)?;
        walk(&mut self.search, &mut self.hubs, graph, star, phases);
        gather(graph, &self.search, &mut self.parts);
        merge(&mut self.parts, &mut self.rows);
        Ok(())
    }

    /// How many rows the last trace has.
    pub fn count(&self) -> usize
        ensures { result ≡ length self.now.rows }
    {
        self.rows.len()
    }

    /// The row at an index: what is reached, in ascending order, and its phases.
    pub fn reached(&self, index: usize) -> (Id, PhaseSet)
        requires { index < length self.now.rows }
        ensures { result ≡ slice_index_or self.now.rows index result }
    {
        self.rows[index]
    }
}

/// No rows, with the memory for all that a search can lead to: each terminal counts for its owner and for one segment.
fn room_for_rows(alloc: Global, search: &Search) -> Result<Vec<(Id, PhaseSet)>, NoMemory>
    ensures none { IfOk result (λ rows. rows.items ≡ []) }
    ensures room { IfOk result (λ rows. 2 * search.now.most ≤ vec_capacity rows) }
{
    let most = times(search.most(), 2)?;
    Vec::with_capacity(alloc, most)
}
