//! Making a graph.

ghost use Rattle.std.specs.Prelude.{◌≡◌, ℕ, ◌+◌, ◌≤◌, IfOk, OnOk, length, map, nat_eq};
ghost use Rattle.std.specs.List.{IsDistinct};
ghost use Rattle.std.specs.Map.{keys_of};
ghost use Rattle.graph_pages.specs.Graph.{members_in, members_of, star_in, star_of};
ghost use Rattle.graph_pages.specs.declared.star.Star.{Star};
ghost use Rattle.room_words.specs.Terms.{same_anchor};
ghost use Rattle.room_words.specs.declared.anchor.Anchor.{Anchor};

use crate::counts::Counts;
use crate::graph::Graph;
use crate::maps::Maps;
use crate::paged_map::PagedMap;
use crate::star::Star;
use cim_words::NoMemory;
use room_words::{Anchor, Members};
use std::alloc::Global;
use std::sync::ledger::Ledger;
use step_count::Steps;

impl Graph {
    /// The graph of these stars and places, one tick for each. They are of different identifiers and anchors.
    /// It is want of memory too where what they list is no number of items.
    pub fn build<L: Ledger>(
        alloc: Global,
        stars: Vec<Star>,
        places: Vec<(Anchor, Members)>,
        steps: &mut Steps<L>,
    ) -> Result<Graph, NoMemory>
        requires stars { IsDistinct nat_eq (map (λ (star : Star). star.id.number) stars.items) }
        requires places { IsDistinct same_anchor (keys_of places.items) }
        ensures stars { IfOk result (λ graph. (x : ℕ) → star_of graph x ≡ star_in stars.items x) }
        ensures places { IfOk result (λ graph. (place : Anchor) → members_of graph place ≡ members_in places.items place) }
        ensures ticks { OnOk result (steps.new ≡ steps.old + length stars.items + length places.items) }
        ensures bound { steps.new ≤ steps.old + length stars.items + length places.items }
    {
        let stars = PagedMap::build(alloc, stars, steps)?;
        let places = PagedMap::build(alloc, places, steps)?;
        let counts = stars.counts()?.changed(Counts::NONE, places.counts()?)?;
        let maps = Maps {
            stars,
            places,
            counts,
        };
        Ok(Graph { maps })
    }
}
