//! Putting the entries of one identifier and of one place.

ghost use Rattle.std.specs.Prelude.{◌≡◌, ◌+◌, ◌≤◌, [], ◌∷◌, OnOk};
ghost use Rattle.cim_model.specs.Stands.{Stands};
ghost use Rattle.increment.specs.Edits.{HasMembersPut, HasStarsPut};

use cim_records::Index;
use cim_words::{Id, NoMemory};
use graph_pages::GraphEdit;
use link_rules::{members_of, star_of};
use room_words::{Anchor, Overlay, places_are_compared};
use std::alloc::Global;
use std::sync::ledger::Ledger;
use step_count::Steps;

/// Puts the star of an identifier, or drops it where there is none: one tick.
pub(crate) fn put_star<L: Ledger>(
    alloc: Global,
    index: &Index,
    overlay: &Overlay,
    id: Id,
    edit: &mut GraphEdit,
    steps: &mut Steps<L>,
) -> Result<(), NoMemory>
    requires { Stands index.now overlay.now }
    ensures put { OnOk result (HasStarsPut index.now overlay.now (id.number ∷ []) edit.old edit.new) }
    ensures ticks { OnOk result (steps.new ≡ steps.old + 1) }
    ensures bound { steps.new ≤ steps.old + 1 }
{
    match star_of(alloc, index, overlay, id)? {
        Some(star) => edit.put_star(star, steps),
        None => edit.drop_star(id, steps),
    }
}

/// Puts the members of a place, or drops them where there is no such place: one tick.
pub(crate) fn put_members<L: Ledger>(
    alloc: Global,
    index: &Index,
    overlay: &Overlay,
    place: Anchor,
    edit: &mut GraphEdit,
    steps: &mut Steps<L>,
) -> Result<(), NoMemory>
    requires { Stands index.now overlay.now }
    ensures put { OnOk result (HasMembersPut index.now overlay.now (place ∷ []) edit.old edit.new) }
    ensures ticks { OnOk result (steps.new ≡ steps.old + 1) }
    ensures bound { steps.new ≤ steps.old + 1 }
{
    places_are_compared();
    match members_of(alloc, index, overlay, place)? {
        Some(members) => edit.put_members(place, members, steps),
        None => edit.drop_members(place, steps),
    }
}
