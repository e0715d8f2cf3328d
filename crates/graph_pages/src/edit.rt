//! Changing a graph entry by entry.

ghost use Rattle.std.specs.Prelude.{◌≡◌, ◌==◌, ◌≤◌, ◌+◌, ℕ, Some, None, cond, OnOk, OnErr};
ghost use Rattle.graph_pages.specs.Graph.{members_of, star_of};
ghost use Rattle.room_words.specs.Terms.{same_anchor};
ghost use Rattle.room_words.specs.declared.anchor.Anchor.{Anchor};

use crate::counts::Counts;
use crate::graph::Graph;
use crate::maps::Maps;
use crate::star::Star;
use cim_words::{Id, NoMemory};
use room_words::{Anchor, Members};
use std::marker::Model;
use std::sync::ledger::Ledger;
use step_count::Steps;

/// The two maps of a graph, which change entry by entry. Each change takes one tick, however large the graph is. It is want of memory
/// too where what the entries would list is no number of items. A change that is refused changes nothing.
#[derive(Drop)]
pub struct GraphEdit {
    pub(crate) maps: Maps,
}

impl Model for GraphEdit {
    ghost use Rattle.graph_pages.specs.Graph.{GraphView};

    ghost Value = { GraphView };

    ghost view = { λ edit. edit.maps };
}

impl GraphEdit {
    /// Puts a star, in place of the one of its identifier if there is one.
    pub fn put_star<L: Ledger>(&mut self, star: Star, steps: &mut Steps<L>) -> Result<(), NoMemory>
        ensures stars { OnOk result ((x : ℕ) → star_of self.new x ≡ cond (star.id.number == x) (Some star) (star_of self.old x)) }
        ensures members { OnOk result ((place : Anchor) → members_of self.new place ≡ members_of self.old place) }
        ensures refused { OnErr result (self.new ≡ self.old) }
        ensures ticks { OnOk result (steps.new ≡ steps.old + 1) }
        ensures bound { steps.new ≤ steps.old + 1 }
    {
        let gone = self.maps.stars.counts_at(star.id.number);
        let counts = self.maps.counts.changed(gone, Counts::of_star(&star))?;
        self.maps.stars.put(star, steps)?;
        self.maps.counts = counts;
        Ok(())
    }

    /// Puts the terminals at a place, in place of those that stood there.
    pub fn put_members<L: Ledger>(
        &mut self,
        place: Anchor,
        members: Members,
        steps: &mut Steps<L>,
    ) -> Result<(), NoMemory>
        ensures members { OnOk result ((other : Anchor) → members_of self.new other ≡ cond (same_anchor place other) (Some members) (members_of self.old other)) }
        ensures stars { OnOk result ((x : ℕ) → star_of self.new x ≡ star_of self.old x) }
        ensures refused { OnErr result (self.new ≡ self.old) }
        ensures ticks { OnOk result (steps.new ≡ steps.old + 1) }
        ensures bound { steps.new ≤ steps.old + 1 }
    {
        let gone = self.maps.places.counts_at(place);
        let counts = self.maps.counts.changed(gone, Counts::PLACE)?;
        self.maps.places.put((place, members), steps)?;
        self.maps.counts = counts;
        Ok(())
    }

    /// Drops the star of an identifier, if there is one.
    pub fn drop_star<L: Ledger>(&mut self, id: Id, steps: &mut Steps<L>) -> Result<(), NoMemory>
        ensures stars { OnOk result ((x : ℕ) → star_of self.new x ≡ cond (id.number == x) None (star_of self.old x)) }
        ensures members { OnOk result ((place : Anchor) → members_of self.new place ≡ members_of self.old place) }
        ensures refused { OnErr result (self.new ≡ self.old) }
        ensures ticks { OnOk result (steps.new ≡ steps.old + 1) }
        ensures bound { steps.new ≤ steps.old + 1 }
    {
        let gone = self.maps.stars.counts_at(id.number);
        let counts = self.maps.counts.changed(gone, Counts::NONE)?;
        self.maps.stars.remove(id.number, steps)?;
        self.maps.counts = counts;
        Ok(())
    }

    /// Drops the terminals at a place, if there are any.
    pub fn drop_members<L: Ledger>(
        &mut self,
        place: Anchor,
        steps: &mut Steps<L>,
    ) -> Result<(), NoMemory>
        ensures members { OnOk result ((other : Anchor) → members_of self.new other ≡ cond (same_anchor place other) None (members_of self.old other)) }
        ensures stars { OnOk result ((x : ℕ) → star_of self.new x ≡ star_of self.old x) }
        ensures refused { OnErr result (self.new ≡ self.old) }
        ensures ticks { OnOk result (steps.new ≡ steps.old + 1) }
        ensures bound { steps.new ≤ steps.old + 1 }
    {
        let gone = self.maps.places.counts_at(place);
        let counts = self.maps.counts.changed(gone, Counts::NONE)?;
        self.maps.places.remove(place, steps)?;
        self.maps.counts = counts;
        Ok(())
    }

    /// The graph of these maps.
    pub fn done(self) -> Graph
        ensures { result ≡ self }
    {
        Graph { maps: self.maps }
    }
}
