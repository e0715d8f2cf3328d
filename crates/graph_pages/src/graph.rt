//! The graph.

ghost use Rattle.std.specs.Prelude.{◌≡◌, ◌≤◌, ℕ, IfOk, map, nat_eq, option_copied};
ghost use Rattle.std.specs.Iterator.{YieldsFirstRef, item_count};
ghost use Rattle.std.specs.List.{IsDistinct};
ghost use Rattle.graph_pages.specs.Graph.{members_of, star_in, star_of};
ghost use Rattle.graph_pages.specs.Size.{listed_hubs, listed_spokes};
ghost use Rattle.graph_pages.specs.declared.star.Star.{Star};

use crate::edit::GraphEdit;
use crate::entries::Entries;
use crate::maps::Maps;
use crate::star::Star;
use cim_words::{Id, NoMemory};
use room_words::{Anchor, Members};
use shared_parts::Share;
use std::marker::Model;

/// Two finite maps, which are shared and do not change: from equipment and items to their stars, and from places to their members.
#[derive(Drop)]
pub struct Graph {
    pub(crate) maps: Maps,
}

impl Model for Graph {
    ghost use Rattle.graph_pages.specs.Graph.{GraphView};

    ghost Value = { GraphView };

    ghost view = { λ graph. graph.maps };
}

impl Graph {
    /// The star of a piece of equipment or item.
    pub fn star(&self, id: Id) -> Option<&Star>
        ensures { option_copied result ≡ star_of self.now id.number }
    {
        self.maps.star(id)
    }

    /// The terminals at a place.
    pub fn members(&self, place: Anchor) -> Option<&Members>
        ensures { option_copied result ≡ members_of self.now place }
    {
        self.maps.members(place)
    }

    /// Goes over the stars, each once, in no stated order: a look-up among them gives what a look-up in the graph gives.
    pub fn stars(&self) -> Stars<'_>
        ensures same { (x : ℕ) → star_in result x ≡ star_of self.now x }
        ensures once { IsDistinct nat_eq (map (λ (star : Star). star.id.number) result) }
    {
        Stars {
            rest: self.maps.stars.entries(),
        }
    }

    /// A number of terminals: at least as many as the stars list.
    pub fn spokes(&self) -> usize
        ensures { listed_spokes self.now ≤ result }
    {
        self.maps.counts().spokes
    }

    /// A number of places and sections: at least as many as there are.
    pub fn hubs(&self) -> usize
        ensures { listed_hubs self.now ≤ result }
    {
        self.maps.counts().hubs
    }

    /// The same graph once more.
    pub fn share(&self) -> Result<Graph, NoMemory>
        ensures { IfOk result (λ graph. graph ≡ self.now) }
    {
        Ok(Graph {
            maps: self.maps.share()?,
        })
    }

    /// The same maps, to be changed entry by entry. This graph and its shares keep what they hold.
    pub fn edit(&self) -> Result<GraphEdit, NoMemory>
        ensures { IfOk result (λ edit. edit ≡ self.now) }
    {
        Ok(GraphEdit {
            maps: self.maps.share()?,
        })
    }
}

/// Goes over the stars of a graph.
#[derive(Drop)]
pub struct Stars<'a> {
    rest: Entries<'a, Star>,
}

impl<'a> Model for Stars<'a> {
    ghost use Rattle.std.specs.Prelude.{List};
    ghost use Rattle.graph_pages.specs.declared.star.Star.{Star};

    ghost Value = { List Star };

    ghost view = { λ stars. stars.rest };
}

impl<'a> Iterator for Stars<'a> {
    type Item = &'a Star;

    ghost next_gives = { YieldsFirstRef (λ stars. stars) };

    ghost remaining = { item_count (λ stars. stars) };

    fn next(&mut self) -> Option<&'a Star> {
        self.rest.next()
    }
}
