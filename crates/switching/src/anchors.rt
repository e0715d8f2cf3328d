//! The places at which a jumper or a ground is to be anchored, and what is anchored at an item.

ghost use Rattle.std.specs.Prelude.{◌≡◌, find, nat_le, length, option_copied};
ghost use Rattle.std.specs.List.{filter, filter_map};
ghost use Rattle.cim_model.specs.Live as live;
ghost use Rattle.cim_model.specs.Refusals as spec;
ghost use Rattle.cim_words.specs.Limits.{most_at_place};

use crate::targets::refused_if;
use cim_records::Index;
use cim_words::{Id, MOST_AT_PLACE};
use room_words::{Act, ActRefusal, Anchor, Overlay, TempItem, places_are_compared};
use temporary::{has_at_most_terminals, is_place};

/// An anchor is no node of the model and no side of an item; the first such is named by its place, from 1.
pub(crate) fn no_anchor(index: &Index, overlay: &Overlay, act: &Act) -> Option<ActRefusal>
    ensures { result ≡ spec.no_anchor index.now overlay.now act.now }
{
    match *act {
        Act::Jumper { first, second, .. } => {
            if !is_place(index, overlay, first) {
                Some(ActRefusal::NoAnchor(1))
            } else if !is_place(index, overlay, second) {
                Some(ActRefusal::NoAnchor(2))
            } else {
                None
            }
        }
        Act::Ground { at, .. } => refused_if(
            !is_place(index, overlay, at),
            ActRefusal::NoAnchor(1),
        ),
        _ => None,
    }
}

/// The two anchors of a jumper are one.
pub(crate) fn one_anchor(act: &Act) -> Option<ActRefusal>
    ensures { result ≡ spec.one_anchor act.now }
{
    places_are_compared();
    match *act {
        Act::Jumper { first, second, .. } => refused_if(first == second, ActRefusal::SameAnchor),
        _ => None,
    }
}

/// A jumper or a ground has no phase.
pub(crate) fn no_phase(act: &Act) -> Option<ActRefusal>
    ensures { result ≡ spec.no_phase act.now }
{
    match *act {
        Act::Jumper { phases, .. } | Act::Ground { phases, .. } => {
            refused_if(phases.is_empty(), ActRefusal::Phases)
        }
        _ => None,
    }
}

/// The place of an anchor of an item has as many terminals as it may; the first such is named by its node or item.
pub(crate) fn crowded_place(index: &Index, overlay: &Overlay, item: &TempItem) -> Option<ActRefusal>
    ensures { result ≡ spec.crowded_place index.now overlay.now item.now }
{
    match *item {
        TempItem::Jumper { first, second, .. } => {
            if is_full(index, overlay, first) {
                Some(ActRefusal::Crowded(id_of(first)))
            } else if is_full(index, overlay, second) {
                Some(ActRefusal::Crowded(id_of(second)))
            } else {
                None
            }
        }
        TempItem::Ground { at, .. } => refused_if(
            is_full(index, overlay, at),
            ActRefusal::Crowded(id_of(at)),
        ),
        TempItem::Cut { .. } | TempItem::Clamp { .. } => None,
    }
}

/// Whether as many terminals stand at a place as may.
fn is_full(index: &Index, overlay: &Overlay, place: Anchor) -> bool
    ensures { result ≡ nat_le most_at_place (length (live.terms_at index.now overlay.now place)) }
{
    !has_at_most_terminals(index, overlay, place, MOST_AT_PLACE - 1)
}

/// The node or the item of a place.
fn id_of(place: Anchor) -> Id
    ensures { result ≡ spec.anchor_id place }
{
    match place {
        Anchor::Node(id) | Anchor::Side(id, _) => id,
    }
}

/// An item is anchored at a side of what is to be taken away; the first in order of placing is named.
pub(crate) fn in_use(overlay: &Overlay, act: &Act) -> Option<ActRefusal>
    ensures { result ≡ spec.in_use overlay.now act.now }
{
    match *act {
        Act::Remove(id) => {
            let item = anchored_at(overlay.items.as_slice(), id)?;
            Some(ActRefusal::InUse(item.id()))
        }
        _ => None,
    }
}

/// The first of these items that is anchored at a side of an item.
fn anchored_at(items: &[TempItem], id: Id) -> Option<&TempItem>
    ensures { option_copied result ≡ find (spec.is_anchored_at id.number) items.now }
{
    items.iter().find(|item| is_anchored_at(item, id))
}

/// Whether an anchor of an item is a side of another one.
fn is_anchored_at(item: &TempItem, id: Id) -> bool
    ensures { result ≡ spec.is_anchored_at id.number item.now }
{
    match *item {
        TempItem::Jumper { first, second, .. } => is_side_of(first, id) || is_side_of(second, id),
        TempItem::Ground { at, .. } => is_side_of(at, id),
        TempItem::Cut { .. } | TempItem::Clamp { .. } => false,
    }
}

/// Whether a place is a side of an item.
fn is_side_of(place: Anchor, id: Id) -> bool
    ensures { result ≡ spec.is_side_of id.number place }
{
    match place {
        Anchor::Node(_) => false,
        Anchor::Side(item, _) => item.number == id.number,
    }
}
