//! The graph after an accepted switching order.

ghost use Rattle.std.specs.Prelude.{◌≡◌, ◌+◌, ◌≤◌, None, length, map, IfOk, OnOk};
ghost use Rattle.cim_model.specs.Effects.{effect};
ghost use Rattle.cim_model.specs.Profile.{IsFaultless};
ghost use Rattle.cim_model.specs.Refusals.{refusal_of};
ghost use Rattle.cim_model.specs.Stands.{Stands};
ghost use Rattle.cim_model.specs.Values.{number_of_id};
ghost use Rattle.increment.specs.Edits.{HasMembersPut, HasStarsPut};
ghost use Rattle.increment.specs.Touched.{touched_places, touched_stars};
ghost use Rattle.link_rules.specs.Map.{IsMap};

use crate::laws::acts_touch_few_entries;
use crate::putting::{put_members, put_star};
use crate::touched::{touched_places, touched_stars};
use act_laws::accepted_acts_stand;
use cim_records::Index;
use cim_words::{Id, NoMemory};
use graph_pages::{Graph, GraphEdit};
use room_words::{Act, Anchor, Overlay, places_are_compared};
use std::alloc::Global;
use std::sync::ledger::Ledger;
use step_count::Steps;

/// The graph after an accepted act, made from the graph before it: each entry that the act changes is put or dropped, with one tick for
/// each, and all others stay.
pub fn after_act<L: Ledger>(
    alloc: Global,
    graph: &Graph,
    index: &Index,
    old: &Overlay,
    new: &Overlay,
    act: &Act,
    steps: &mut Steps<L>,
) -> Result<Graph, NoMemory>
    requires faultless { IsFaultless index.now }
    requires stands { Stands index.now old.now }
    requires accepted { refusal_of index.now old.now act.now ≡ None }
    requires new { new.now ≡ effect old.now act.now }
    requires map { IsMap index.now old.now graph.now }
    ensures map { IfOk result (λ graph. IsMap index.now new.now graph) }
    ensures ticks { OnOk result (steps.new ≡ steps.old + length (touched_stars old.now act.now) + length (touched_places old.now act.now)) }
    ensures bound { steps.new ≤ steps.old + 6 }
{
    accepted_acts_stand();
    acts_touch_few_entries();
    places_are_compared();
    let stars = touched_stars(alloc, old, act)?;
    let places = touched_places(alloc, old, act)?;
    let mut edit = graph.edit()?;
    put_stars(alloc, index, new, &stars, &mut edit, steps)?;
    put_places(alloc, index, new, &places, &mut edit, steps)?;
    Ok(edit.done())
}

/// Puts or drops the stars of these identifiers, one tick for each.
fn put_stars<L: Ledger>(
    alloc: Global,
    index: &Index,
    overlay: &Overlay,
    ids: &[Id],
    edit: &mut GraphEdit,
    steps: &mut Steps<L>,
) -> Result<(), NoMemory>
    requires { Stands index.now overlay.now }
    ensures put { OnOk result (HasStarsPut index.now overlay.now (map number_of_id ids.now) edit.old edit.new) }
    ensures ticks { OnOk result (steps.new ≡ steps.old + length ids.now) }
    ensures bound { steps.new ≤ steps.old + length ids.now }
{
    for id in ids {
        put_star(alloc, index, overlay, *id, edit, steps)?;
    }
    Ok(())
}

/// Puts or drops the members of these places, one tick for each.
fn put_places<L: Ledger>(
    alloc: Global,
    index: &Index,
    overlay: &Overlay,
    places: &[Anchor],
    edit: &mut GraphEdit,
    steps: &mut Steps<L>,
) -> Result<(), NoMemory>
    requires { Stands index.now overlay.now }
    ensures put { OnOk result (HasMembersPut index.now overlay.now places.now edit.old edit.new) }
    ensures ticks { OnOk result (steps.new ≡ steps.old + length places.now) }
    ensures bound { steps.new ≤ steps.old + length places.now }
{
    places_are_compared();
    for place in places {
        put_members(alloc, index, overlay, *place, edit, steps)?;
    }
    Ok(())
}
