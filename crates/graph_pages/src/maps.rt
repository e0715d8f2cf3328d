//! The two maps of a graph.

ghost use Rattle.std.specs.Prelude.{◌≡◌, ◌≤◌, option_copied};
ghost use Rattle.graph_pages.specs.Graph.{members_of, star_of};
ghost use Rattle.graph_pages.specs.Size.{listed_hubs, listed_spokes};

use crate::counts::Counts;
use crate::paged_map::PagedMap;
use crate::star::Star;
use cim_words::{Id, NoMemory};
use room_words::{Anchor, Members};
use shared_parts::Share;
use std::marker::Model;

/// The two maps, and counts that are enough for what their entries list.
#[derive(Drop)]
pub(crate) struct Maps {
    pub(crate) stars: PagedMap<Star>,
    pub(crate) places: PagedMap<(Anchor, Members)>,
    pub(crate) counts: Counts,
}

impl Model for Maps {
    ghost use Rattle.std.specs.Prelude.{◌≤◌};
    ghost use Rattle.graph_pages.specs.Graph.{GraphView};
    ghost use Rattle.graph_pages.specs.Size.{listed_hubs, listed_spokes};

    ghost Value = { GraphView };

    ghost view = { λ maps. record { stars = maps.stars; places = maps.places } };

    ghost invariant = { λ maps. (listed_spokes (record { stars = maps.stars; places = maps.places }) ≤ maps.counts.spokes) × (listed_hubs (record { stars = maps.stars; places = maps.places }) ≤ maps.counts.hubs) };
}

impl Maps {
    /// The star of a piece of equipment or item.
    pub(crate) fn star(&self, id: Id) -> Option<&Star>
        ensures { option_copied result ≡ star_of self.now id.number }
    {
        self.stars.get(id.number)
    }

    /// The terminals at a place.
    #[tactic(auto, using(crate::proofs::Places::members_are))]
    pub(crate) fn members(&self, place: Anchor) -> Option<&Members>
        ensures { option_copied result ≡ members_of self.now place }
    {
        match self.places.get(place) {
            Some((_, members)) => Some(members),
            None => None,
        }
    }

    /// Counts that are enough for what the entries list.
    pub(crate) fn counts(&self) -> Counts
        ensures spokes { listed_spokes self.now ≤ result.spokes }
        ensures hubs { listed_hubs self.now ≤ result.hubs }
    {
        self.counts
    }
}

impl Share for Maps {
    fn share(&self) -> Result<Maps, NoMemory> {
        Ok(Maps {
            stars: self.stars.share()?,
            places: self.places.share()?,
            counts: self.counts,
        })
    }
}
