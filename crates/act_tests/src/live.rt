//! A network that switching orders change, with its graph as they patch it.

ghost use Rattle.std.specs.Prelude.{◌≡◌, None, IfOk};
ghost use Rattle.cim_model.specs.Effects.{effect};
ghost use Rattle.cim_model.specs.Profile.{IsFaultless};
ghost use Rattle.cim_model.specs.Refusals.{refusal_of};
ghost use Rattle.cim_model.specs.Stands.{Stands};
ghost use Rattle.link_rules.specs.Map.{IsMap};

use act_laws::accepted_acts_stand;
use cim_model::the_empty_overlay_stands;
use cim_records::Index;
use cim_words::NoMemory;
use graph_pages::Graph;
use increment::after_act;
use room_words::{Act, Overlay};
use std::alloc::Global;
use std::marker::{Brand, Model};
use std::sync::ledger::{Blank, Ledger};
use step_count::Steps;
use switching::{ActDenied, judge};
use topology::rebuild;

/// A network, and its graph as orders patched it. Contracts see what stands on the model for a time.
#[derive(Drop)]
pub(crate) struct Live {
    index: Index,
    overlay: Overlay,
    graph: Graph,
}

impl Model for Live {
    ghost use Rattle.room_words.specs.declared.overlay.Overlay.{Overlay};
    ghost use Rattle.cim_model.specs.Profile.{IsFaultless};
    ghost use Rattle.cim_model.specs.Stands.{Stands};
    ghost use Rattle.link_rules.specs.Map.{IsMap};

    ghost Value = { Overlay };

    ghost view = { λ live. live.overlay };

    ghost invariant = { λ live. IsFaultless live.index × Stands live.index live.overlay × IsMap live.index live.overlay live.graph };
}

impl Live {
    /// The network before the first order.
    pub(crate) fn first(alloc: Global, index: Index) -> Result<Live, NoMemory>
        requires { IsFaultless index }
    {
        the_empty_overlay_stands();
        let overlay = Overlay::empty(alloc);
        let graph = graph_of::<Brand>(alloc, &index, &overlay, Blank::new(1))?;
        Ok(Live {
            index,
            overlay,
            graph,
        })
    }

    /// Changes the network by an order, or says why it is refused.
    pub(crate) fn act(&mut self, alloc: Global, act: &Act) -> Result<(), ActDenied> {
        accepted_acts_stand();
        let new = judge(alloc, &self.index, &self.overlay, act)?;
        let graph = patched::<Brand>(
            alloc,
            &self.graph,
            &self.index,
            &self.overlay,
            &new,
            act,
            Blank::new(1),
        )?;
        self.overlay = new;
        self.graph = graph;
        Ok(())
    }

    /// The graph of the network from nothing.
    pub(crate) fn rebuilt(&self, alloc: Global) -> Result<Graph, NoMemory> {
        graph_of::<Brand>(alloc, &self.index, &self.overlay, Blank::new(1))
    }

    pub(crate) fn index(&self) -> &Index {
        &self.index
    }

    pub(crate) fn overlay(&self) -> &Overlay {
        &self.overlay
    }

    pub(crate) fn graph(&self) -> &Graph {
        &self.graph
    }
}

/// The graph after an order, from the graph before it.
fn patched<L: Ledger>(
    alloc: Global,
    graph: &Graph,
    index: &Index,
    old: &Overlay,
    new: &Overlay,
    act: &Act,
    blank: Blank,
) -> Result<Graph, NoMemory>
    requires name { blank.name ≡ L.name }
    requires parts { blank.parts ≡ L.parts }
    requires some { blank.parts ≡ 1 }
    requires faultless { IsFaultless index.now }
    requires stands { Stands index.now old.now }
    requires accepted { refusal_of index.now old.now act.now ≡ None }
    requires new { new.now ≡ effect old.now act.now }
    requires map { IsMap index.now old.now graph.now }
    ensures { IfOk result (λ graph. IsMap index.now new.now graph) }
{
    let mut steps = Steps::<L>::of(blank);
    after_act(alloc, graph, index, old, new, act, &mut steps)
}

/// The graph of the network under an overlay, from nothing.
fn graph_of<L: Ledger>(
    alloc: Global,
    index: &Index,
    overlay: &Overlay,
    blank: Blank,
) -> Result<Graph, NoMemory>
    requires name { blank.name ≡ L.name }
    requires parts { blank.parts ≡ L.parts }
    requires some { blank.parts ≡ 1 }
    requires stands { Stands index.now overlay.now }
    ensures { IfOk result (λ graph. IsMap index.now overlay.now graph) }
{
    let mut steps = Steps::<L>::of(blank);
    rebuild(alloc, index, overlay, &mut steps)
}
