//! Which places and sections a trace has visited, and in which phases, numbered in the order in which it first comes to each.

ghost use Rattle.std.specs.Prelude.{◌≡◌, None, position, IfOk};
ghost use Rattle.cim_words.specs.declared.phases.Phase.{Phase};
ghost use Rattle.feeder_trace.specs.Hubs.{IsHub, IsVisited, Numbers, Visits, same_hub};
ghost use Rattle.feeder_trace.specs.declared.hub.Hub.{Hub};

use crate::capacity::put_within;
use crate::hub::{Hub, hubs_are_compared};
use crate::phases::without;
use cim_words::{NoMemory, PhaseSet};
use graph_pages::Graph;
use indexmap::IndexSet;
use std::alloc::Global;
use std::marker::Model;

/// Hubs of a graph by number, each once, with the phases in which each was visited.
#[derive(Drop)]
pub(crate) struct Hubs {
    graph: Graph,
    hubs: IndexSet<Hub>,
    visited: Vec<PhaseSet>,
    most: usize,
}

impl Model for Hubs {
    ghost use Rattle.feeder_trace.specs.Views.{HubsView};

    ghost Value = { HubsView };

    ghost use Rattle.feeder_trace.specs.Hubs.{AreMarked, view_of};

    ghost view = { view_of };

    ghost invariant = { AreMarked };
}

impl Hubs {
    /// No hubs, with the memory for all of a graph.
    pub(crate) fn new(alloc: Global, graph: &Graph) -> Result<Hubs, NoMemory>
        ensures { IfOk result (λ hubs. hubs.graph ≡ graph.now) }
    {
        let most = graph.hubs();
        Ok(Hubs {
            graph: graph.share()?,
            hubs: IndexSet::with_capacity(alloc, most)?,
            visited: Vec::with_capacity(alloc, most)?,
            most,
        })
    }

    /// Takes all numbers and marks away, at the cost of the hubs that have some.
    pub(crate) fn clear(&mut self)
        ensures graph { self.new.graph ≡ self.old.graph }
        ensures none { (hub : Hub) (p : Phase) → IsVisited self.new hub p → ⊥ }
    {
        self.hubs.truncate(0);
        self.visited.clear();
    }

    /// Marks a hub visited in some phases, and returns those of them in which it was not visited before.
    pub(crate) fn visit(&mut self, hub: Hub, phases: PhaseSet) -> PhaseSet
        requires { IsHub self.old.graph hub }
        ensures { Visits hub phases result self.old self.new }
    {
        let index = self.number(hub);
        let before = self.visited[index];
        let left = without(phases, before);
        self.visited[index] = before.join(left);
        left
    }

    /// The number of a hub, which takes the next one where it has none yet.
    fn number(&mut self, hub: Hub) -> usize
        requires { IsHub self.old.graph hub }
        ensures { Numbers hub result self.old self.new }
    {
        hubs_are_compared();
        match self.hubs.get_index_of(&hub) {
            Some(index) => index,
            None => self.enter(hub),
        }
    }

    /// Gives the next number to a hub that has none.
    fn enter(&mut self, hub: Hub) -> usize
        requires hub { IsHub self.old.graph hub }
        requires absent { position (same_hub hub) self.old.hubs ≡ None }
        ensures { Numbers hub result self.old self.new }
    {
        hubs_are_compared();
        let index = self.hubs.len();
        self.hubs.insert(hub).unwrap();
        put_within(&mut self.visited, PhaseSet::EMPTY);
        index
    }
}
