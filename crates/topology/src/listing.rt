//! What a graph has entries for: all equipment and items, and all places.

ghost use Rattle.std.specs.Prelude.{◌≡◌, ◌++◌, IfOk, OnOk, map};
ghost use Rattle.cim_model.specs.Live.{at_node};
ghost use Rattle.cim_model.specs.Network.{nodes};
ghost use Rattle.cim_words.specs.declared.identifier.Id.{Id};
ghost use Rattle.room_words.specs.Items.{own_places};
ghost use Rattle.room_words.specs.declared.anchor.Anchor.TheVariants as anchor;
ghost use Rattle.topology.specs.Listed.{owners, places};

use cim_records::Index;
use cim_words::{Id, NoMemory};
use room_words::{Anchor, Overlay, TempItem};
use std::alloc::Global;

/// All equipment of the model, and then the items of the overlay.
pub(crate) fn owners(alloc: Global, index: &Index, overlay: &Overlay) -> Result<Vec<Id>, NoMemory>
    ensures { IfOk result (λ ids. ids.items ≡ owners index.now overlay.now) }
{
    let mut ids = Vec::from_slice(alloc, index.equipment())?;
    for item in overlay.items.as_slice() {
        ids.push(item.id())?;
    }
    Ok(ids)
}

/// All nodes of the model, and then the sides of cuts and clamps of the overlay.
pub(crate) fn places(
    alloc: Global,
    index: &Index,
    overlay: &Overlay,
) -> Result<Vec<Anchor>, NoMemory>
    ensures { IfOk result (λ found. found.items ≡ places index.now overlay.now) }
{
    let mut places = nodes(alloc, index)?;
    for item in overlay.items.as_slice() {
        push_places(&mut places, item)?;
    }
    Ok(places)
}

/// All nodes of the model as places.
fn nodes(alloc: Global, index: &Index) -> Result<Vec<Anchor>, NoMemory>
    ensures { IfOk result (λ found. found.items ≡ map at_node (nodes index.now)) }
{
    as_places(alloc, index.nodes())
}

/// Nodes as places.
fn as_places(alloc: Global, ids: &[Id]) -> Result<Vec<Anchor>, NoMemory>
    ensures { IfOk result (λ places. places.items ≡ map (λ (id : Id). anchor.Node id) ids.now) }
{
    ids.iter().map(|id| Anchor::Node(*id)).collect(alloc)
}

/// Adds the sides of a cut or a clamp.
fn push_places(places: &mut Vec<Anchor>, item: &TempItem) -> Result<(), NoMemory>
    ensures { OnOk result (places.new.items ≡ places.old.items ++ own_places item.now) }
{
    match *item {
        TempItem::Cut { id, .. } => {
            places.push(Anchor::Side(id, 1))?;
            places.push(Anchor::Side(id, 2))?;
        }
        TempItem::Clamp { id, .. } => places.push(Anchor::Side(id, 1))?,
        TempItem::Jumper { .. } | TempItem::Ground { .. } => {}
    }
    Ok(())
}
