//! A search from the terminals of a star.

ghost use Rattle.std.specs.Prelude.{◌≡◌, ◌↔◌, Some};
ghost use Rattle.cim_model.specs.Reach.{IsPointReached};
ghost use Rattle.graph_pages.specs.Graph.{star_of};
ghost use Rattle.graph_pages.specs.Walks.{wiring};
ghost use Rattle.room_words.specs.declared.term.Point.{Point};
ghost use Rattle.feeder_trace.specs.Search.{IsMarked};

use crate::hubs::Hubs;
use crate::search::Search;
use crate::spread::{reach_spokes, spread};
use cim_words::PhaseSet;
use graph_pages::{Graph, Star};

/// Visited all to which a walk leads from a star in some phases, and nothing else.
pub(crate) fn walk(
    search: &mut Search,
    hubs: &mut Hubs,
    graph: &Graph,
    star: &Star,
    phases: PhaseSet,
)
    requires search { search.old.graph ≡ graph.now }
    requires hubs { hubs.old.graph ≡ graph.now }
    requires star { star_of graph.now star.now.id.number ≡ Some star.now }
    ensures search { search.new.graph ≡ search.old.graph }
    ensures hubs { hubs.new.graph ≡ hubs.old.graph }
    ensures most { search.new.most ≡ search.old.most }
    ensures walked { (a : Point) → IsMarked search.new a ↔ IsPointReached (wiring graph.now) star.now.id.number phases a }
{
    search.clear();
    hubs.clear();
    reach_spokes(search, star.spokes.as_slice(), None, phases);
    while let Some((term, phases)) = search.next() {
        spread(search, hubs, graph, term, phases);
    }
}
