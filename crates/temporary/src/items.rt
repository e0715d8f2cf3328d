//! What each temporary item needs.

ghost use Rattle.std.specs.Prelude.{◌≡◌, ◌↔◌, IsTrue, IfErr, is_ok, map, nat_eq};
ghost use Rattle.std.specs.List.{IsDistinct, list_all};
ghost use Rattle.cim_model.specs.Stands.{ItemStands};
ghost use Rattle.room_words.specs.Items.{item_id, item_number};
ghost use Rattle.temporary.specs.Parts as parts;

use crate::marks::{bears, is_apart};
use crate::places::takes;
use cim_model::marks_divide_segments;
use cim_records::Index;
use cim_words::Id;
use room_words::{Lost, Overlay, TempItem, places_are_compared};

/// Whether an item stands on the model of an index, under an overlay in which no two items have one identifier.
pub fn stands(index: &Index, overlay: &Overlay, item: &TempItem) -> Result<(), Lost>
    requires { IsDistinct nat_eq (map item_number overlay.now.items) }
    ensures just { IsTrue (is_ok result) ↔ ItemStands index.now overlay.now item.now }
    ensures lost { IfErr result (λ lost. lost.id ≡ item_id item.now) }
{
    if item_stands(index, overlay, item) {
        Ok(())
    } else {
        Err(Lost { id: item.id() })
    }
}

/// Whether an item stands.
fn item_stands(index: &Index, overlay: &Overlay, item: &TempItem) -> bool
    requires { IsDistinct nat_eq (map item_number overlay.now.items) }
    ensures { IsTrue result ↔ ItemStands index.now overlay.now item.now }
{
    index.set();
    marks_divide_segments();
    does_stand(index, overlay, item)
}

/// Whether an item is borne by the model, and the marks of its segment are apart.
pub(crate) fn does_stand(index: &Index, overlay: &Overlay, item: &TempItem) -> bool
    ensures { result ≡ parts.does_stand index.now overlay.now item.now }
{
    is_borne(index, overlay, item) && has_apart(index, overlay, item)
}

/// Whether the marks of the segment of an item are apart, if it stands on one.
fn has_apart(index: &Index, overlay: &Overlay, item: &TempItem) -> bool
    ensures { result ≡ parts.has_apart index.now overlay.now item.now }
{
    match item.segment() {
        Some(segment) => are_apart(index, overlay, segment),
        None => true,
    }
}

/// Whether each item is apart from the other marks of a segment.
fn are_apart(index: &Index, overlay: &Overlay, segment: Id) -> bool
    ensures { result ≡ list_all (parts.is_apart index.now overlay.now segment.number) overlay.now.items }
{
    overlay
        .items
        .as_slice()
        .iter()
        .all(|item| is_apart(index, overlay, segment, item))
}

/// Whether an item is sound, borne by the model, and apart from the other marks of its segment.
pub(crate) fn is_good(index: &Index, overlay: &Overlay, item: &TempItem) -> bool
    ensures { result ≡ parts.is_good index.now overlay.now item.now }
{
    is_sound(item) && is_borne(index, overlay, item) && is_apart_at_home(index, overlay, item)
}

/// Whether a jumper has different anchors, and a jumper or a ground some phase.
fn is_sound(item: &TempItem) -> bool
    ensures { result ≡ parts.is_sound item.now }
{
    places_are_compared();
    match *item {
        TempItem::Cut { .. } | TempItem::Clamp { .. } => true,
        TempItem::Jumper {
            first,
            second,
            phases,
            ..
        } => first != second && !phases.is_empty(),
        TempItem::Ground { phases, .. } => !phases.is_empty(),
    }
}

/// Whether an item is no subject of the model, and finds what it needs.
fn is_borne(index: &Index, overlay: &Overlay, item: &TempItem) -> bool
    ensures { result ≡ parts.is_borne index.now overlay.now item.now }
{
    !index.is_subject(item.id()) && finds(index, overlay, item)
}

/// Whether a cut or a clamp has a segment that bears it, and each anchor of a jumper or a ground takes a terminal.
fn finds(index: &Index, overlay: &Overlay, item: &TempItem) -> bool
    ensures { result ≡ parts.finds index.now overlay.now item.now }
{
    match *item {
        TempItem::Cut {
            segment,
            length,
            ..
        }
        | TempItem::Clamp {
            segment,
            length,
            ..
        } => bears(index, overlay, segment, length),
        TempItem::Jumper { first, second, .. } => {
            takes(index, overlay, first) && takes(index, overlay, second)
        }
        TempItem::Ground { at, .. } => takes(index, overlay, at),
    }
}

/// Whether an item that stands on a segment is apart from its other marks.
fn is_apart_at_home(index: &Index, overlay: &Overlay, item: &TempItem) -> bool
    ensures { result ≡ parts.is_apart_at_home index.now overlay.now item.now }
{
    match item.segment() {
        Some(segment) => is_apart(index, overlay, segment, item),
        None => true,
    }
}
