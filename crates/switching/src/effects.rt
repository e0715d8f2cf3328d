//! What an accepted act does to the overlay.

ghost use Rattle.std.specs.Prelude.{◌≡◌, ◌++◌, ◌∷◌, [], nat_lt, IfOk, OnOk};
ghost use Rattle.std.specs.List.{filter};
ghost use Rattle.cim_model.specs.Effects as spec;
ghost use Rattle.room_words.specs.Overlay.{position_number};
ghost use Rattle.room_words.specs.declared.overlay.Position.{Position};
ghost use Rattle.switching.specs.Parts as parts;
ghost use Rattle.temporary.specs.Parts.{has_number};

use cim_words::{Id, Listed, NoMemory};
use room_words::{Act, Overlay, Position, TempItem, copied};
use std::alloc::Global;

/// The overlay after an act.
pub(crate) fn effect(alloc: Global, overlay: &Overlay, act: &Act) -> Result<Overlay, NoMemory>
    ensures { IfOk result (λ new. new ≡ spec.effect overlay.now act.now) }
{
    match *act {
        Act::OpenSwitch(id) => switched(alloc, overlay, id, true),
        Act::CloseSwitch(id) => switched(alloc, overlay, id, false),
        Act::Release(id) => released(alloc, overlay, id),
        Act::Remove(id) => removed(alloc, overlay, id),
        Act::Cut { .. } | Act::Clamp { .. } | Act::Jumper { .. } | Act::Ground { .. } => {
            placed(alloc, overlay, act)
        }
    }
}

/// The overlay with an item or a switch in a position. An item is turned itself; for a switch of the model the position in force is.
fn switched(alloc: Global, overlay: &Overlay, id: Id, is_open: bool) -> Result<Overlay, NoMemory>
    ensures { IfOk result (λ new. new ≡ spec.switched overlay.now id is_open) }
{
    if overlay.item(id).is_some() {
        Ok(Overlay {
            items: Listed::of(with_turned(alloc, overlay.items.as_slice(), id, is_open)?),
            positions: copied(alloc, &overlay.positions)?,
        })
    } else {
        Ok(Overlay {
            items: copied(alloc, &overlay.items)?,
            positions: Listed::of(with_position(alloc, overlay.positions.as_slice(), id, is_open)?),
        })
    }
}

/// The overlay without the position of a switch.
fn released(alloc: Global, overlay: &Overlay, id: Id) -> Result<Overlay, NoMemory>
    ensures { IfOk result (λ new. new ≡ parts.released overlay.now id.number) }
{
    Ok(Overlay {
        items: copied(alloc, &overlay.items)?,
        positions: Listed::of(without_position(alloc, overlay.positions.as_slice(), id)?),
    })
}

/// The overlay without an item.
fn removed(alloc: Global, overlay: &Overlay, id: Id) -> Result<Overlay, NoMemory>
    ensures { IfOk result (λ new. new ≡ parts.removed overlay.now id.number) }
{
    Ok(Overlay {
        items: Listed::of(without_item(alloc, overlay.items.as_slice(), id)?),
        positions: copied(alloc, &overlay.positions)?,
    })
}

/// The overlay with what an act places after its items.
fn placed(alloc: Global, overlay: &Overlay, act: &Act) -> Result<Overlay, NoMemory>
    ensures { IfOk result (λ new. new ≡ parts.placing overlay.now act.now) }
{
    let Some(item) = act.placed() else {
        return overlay.copy(alloc);
    };
    Ok(Overlay {
        items: Listed::of(with_item(alloc, overlay.items.as_slice(), item)?),
        positions: copied(alloc, &overlay.positions)?,
    })
}

/// These items, and then one more.
fn with_item(alloc: Global, items: &[TempItem], item: TempItem) -> Result<Vec<TempItem>, NoMemory>
    ensures { IfOk result (λ new. new.items ≡ items.now ++ item ∷ []) }
{
    let mut new = Vec::from_slice(alloc, items)?;
    new.push(item)?;
    Ok(new)
}

/// These items without the one that has an identifier.
fn without_item(alloc: Global, items: &[TempItem], id: Id) -> Result<Vec<TempItem>, NoMemory>
    ensures { IfOk result (λ new. new.items ≡ spec.without_item id.number items.now) }
{
    items
        .iter()
        .filter(|item| !has_number(item, id))
        .copied()
        .collect(alloc)
}

/// These items, the one that has an identifier in a position.
fn with_turned(
    alloc: Global,
    items: &[TempItem],
    id: Id,
    is_open: bool,
) -> Result<Vec<TempItem>, NoMemory>
    ensures { IfOk result (λ new. new.items ≡ spec.with_turned id.number is_open items.now) }
{
    items
        .iter()
        .map(|item| turned_if(*item, id, is_open))
        .collect(alloc)
}

/// Whether an item has an identifier.
fn has_number(item: &TempItem, id: Id) -> bool
    ensures { result ≡ has_number id.number item.now }
{
    item.id().number == id.number
}

/// An item, in a position if it has an identifier.
fn turned_if(item: TempItem, id: Id, is_open: bool) -> TempItem
    ensures { result ≡ parts.turned_if id.number is_open item }
{
    if has_number(&item, id) {
        turned(item, is_open)
    } else {
        item
    }
}

/// An item in a position: a cut and a jumper have one.
fn turned(item: TempItem, is_open: bool) -> TempItem
    ensures { result ≡ spec.turned is_open item }
{
    match item {
        TempItem::Cut {
            id,
            segment,
            length,
            ..
        } => TempItem::Cut {
            id,
            segment,
            length,
            is_open,
        },
        TempItem::Jumper {
            id,
            first,
            second,
            phases,
            ..
        } => TempItem::Jumper {
            id,
            first,
            second,
            phases,
            is_open,
        },
        TempItem::Clamp { .. } | TempItem::Ground { .. } => item,
    }
}

/// These positions without that of a switch.
fn without_position(
    alloc: Global,
    positions: &[Position],
    switch: Id,
) -> Result<Vec<Position>, NoMemory>
    ensures { IfOk result (λ new. new.items ≡ spec.without_position switch.number positions.now) }
{
    positions
        .iter()
        .filter(|position| position.switch.number != switch.number)
        .copied()
        .collect(alloc)
}

/// The positions of the lesser switches, that of this one, and those of the greater ones.
fn with_position(
    alloc: Global,
    positions: &[Position],
    switch: Id,
    is_open: bool,
) -> Result<Vec<Position>, NoMemory>
    ensures { IfOk result (λ new. new.items ≡ spec.with_position switch is_open positions.now) }
{
    let mut new = lesser(alloc, positions, switch)?;
    new.push(Position { switch, is_open })?;
    append_greater(&mut new, positions, switch)?;
    Ok(new)
}

/// The positions of the lesser switches.
fn lesser(alloc: Global, positions: &[Position], switch: Id) -> Result<Vec<Position>, NoMemory>
    ensures { IfOk result (λ new. new.items ≡ filter (λ (one : Position). nat_lt (position_number one) switch.number) positions.now) }
{
    positions
        .iter()
        .filter(|position| position.switch.number < switch.number)
        .copied()
        .collect(alloc)
}

/// Appends the positions of the greater switches.
fn append_greater(
    new: &mut Vec<Position>,
    positions: &[Position],
    switch: Id,
) -> Result<(), NoMemory>
    ensures { OnOk result (new.new.items ≡ new.old.items ++ filter (λ (one : Position). nat_lt switch.number (position_number one)) positions.now) }
{
    for position in positions {
        if position.switch.number <= switch.number {
            continue;
        }
        new.push(*position)?;
    }
    Ok(())
}
