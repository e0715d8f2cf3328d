//! Making the graph of a live network.

ghost use Rattle.std.specs.Prelude.{◌≡◌, ◌+◌, ◌≤◌, length, Contains, IfOk, IsTrue, OnOk};
ghost use Rattle.cim_model.specs.Live.{is_live, is_place};
ghost use Rattle.cim_model.specs.Stands.{Stands};
ghost use Rattle.cim_words.specs.declared.identifier.Id.{Id};
ghost use Rattle.link_rules.specs.Map.{IsMap};
ghost use Rattle.room_words.specs.declared.anchor.Anchor.{Anchor};
ghost use Rattle.topology.specs.Held.{HoldsMembers, HoldsStars};
ghost use Rattle.topology.specs.Listed.{owners, places};

use crate::listing::{owners, places};
use cim_model::subjects_are_listed_once;
use cim_records::Index;
use cim_words::{Id, NoMemory};
use graph_pages::{Graph, Star};
use link_rules::{members_of, star_of};
use room_words::{Anchor, Members, Overlay, places_are_compared};
use std::alloc::Global;
use std::sync::ledger::Ledger;
use step_count::Steps;

/// The graph of a model under an overlay that stands, one tick for each star and each place, those of items counted.
pub fn rebuild<L: Ledger>(
    alloc: Global,
    index: &Index,
    overlay: &Overlay,
    steps: &mut Steps<L>,
) -> Result<Graph, NoMemory>
    requires { Stands index.now overlay.now }
    ensures map { IfOk result (IsMap index.now overlay.now) }
    ensures ticks { OnOk result (steps.new ≡ steps.old + length (owners index.now overlay.now) + length (places index.now overlay.now)) }
    ensures bound { steps.new ≤ steps.old + length (owners index.now overlay.now) + length (places index.now overlay.now) }
{
    subjects_are_listed_once();
    places_are_compared();
    let owners = owners(alloc, index, overlay)?;
    let stars = stars_of(alloc, index, overlay, &owners)?;
    let places = places(alloc, index, overlay)?;
    let members = members_at(alloc, index, overlay, &places)?;
    Graph::build(alloc, stars, members, steps)
}

/// The stars of equipment and items, in the order of these identifiers.
fn stars_of(
    alloc: Global,
    index: &Index,
    overlay: &Overlay,
    ids: &[Id],
) -> Result<Vec<Star>, NoMemory>
    requires stands { Stands index.now overlay.now }
    requires live { (id : Id) → Contains ids.now id → IsTrue (is_live index.now overlay.now id.number) }
    ensures { IfOk result (λ stars. HoldsStars index.now overlay.now ids.now stars.items) }
{
    let mut stars = Vec::with_capacity(alloc, ids.len())?;
    for id in ids {
        let Some(star) = star_of(alloc, index, overlay, *id)? else {
            continue;
        };
        stars.push(star)?;
    }
    Ok(stars)
}

/// The members of places, in the order of the places.
fn members_at(
    alloc: Global,
    index: &Index,
    overlay: &Overlay,
    places: &[Anchor],
) -> Result<Vec<(Anchor, Members)>, NoMemory>
    requires stands { Stands index.now overlay.now }
    requires places { (place : Anchor) → Contains places.now place → IsTrue (is_place index.now overlay.now place) }
    ensures { IfOk result (λ held. HoldsMembers index.now overlay.now places.now held.items) }
{
    let mut held = Vec::with_capacity(alloc, places.len())?;
    for place in places {
        let Some(members) = members_of(alloc, index, overlay, *place)? else {
            continue;
        };
        held.push((*place, members))?;
    }
    Ok(held)
}
