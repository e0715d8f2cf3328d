//! Which stars and which places an act changes.

ghost use Rattle.std.specs.Prelude.{◌≡◌, map, IfOk};
ghost use Rattle.cim_model.specs.Values.{number_of_id};
ghost use Rattle.increment.specs.Touched.{item_places, item_stars, moved, touched_places, touched_stars};

use cim_words::{Id, NoMemory};
use room_words::{Act, Anchor, Overlay, TempItem};
use std::alloc::Global;

/// The stars that an act changes, by identifier.
pub(crate) fn touched_stars(alloc: Global, old: &Overlay, act: &Act) -> Result<Vec<Id>, NoMemory>
    ensures { IfOk result (λ ids. map number_of_id ids.items ≡ touched_stars old.now act.now) }
{
    match *act {
        Act::OpenSwitch(id) | Act::CloseSwitch(id) | Act::Release(id) => {
            Vec::from_slice(alloc, &[id])
        }
        Act::Remove(_)
        | Act::Cut { .. }
        | Act::Clamp { .. }
        | Act::Jumper { .. }
        | Act::Ground { .. } => match moved(old, act) {
            Some(item) => item_stars(alloc, &item),
            None => Ok(Vec::new(alloc)),
        },
    }
}

/// The places whose members an act changes.
pub(crate) fn touched_places(
    alloc: Global,
    old: &Overlay,
    act: &Act,
) -> Result<Vec<Anchor>, NoMemory>
    ensures { IfOk result (λ places. places.items ≡ touched_places old.now act.now) }
{
    match moved(old, act) {
        Some(item) => item_places(alloc, &item),
        None => Ok(Vec::new(alloc)),
    }
}

/// The item that an act places or takes away.
fn moved(old: &Overlay, act: &Act) -> Option<TempItem>
    ensures { result ≡ moved old.now act.now }
{
    match *act {
        Act::Remove(id) => old.item(id).copied(),
        _ => act.placed(),
    }
}

/// The stars that change with an item: its own, and that of the segment on which it stands.
fn item_stars(alloc: Global, item: &TempItem) -> Result<Vec<Id>, NoMemory>
    ensures { IfOk result (λ ids. map number_of_id ids.items ≡ item_stars item.now) }
{
    let mut ids = Vec::with_capacity(alloc, 2)?;
    ids.push(item.id())?;
    if let Some(segment) = item.segment() {
        ids.push(segment)?;
    }
    Ok(ids)
}

/// The places at which the sides of an item stand.
fn item_places(alloc: Global, item: &TempItem) -> Result<Vec<Anchor>, NoMemory>
    ensures { IfOk result (λ places. places.items ≡ item_places item.now) }
{
    let mut places = Vec::with_capacity(alloc, 2)?;
    places.push(item.side_one().0)?;
    if let Some(standing) = item.side_two() {
        places.push(standing.0)?;
    }
    Ok(places)
}
