//! Overlays as a whole.

ghost use Rattle.std.specs.Prelude.{◌≡◌, ◌==◌, ◌↔◌, IsTrue, find, map, length, nat_eq, not, option_copied, option_map};
ghost use Rattle.std.specs.List.{IsDistinct, filter, list_all};
ghost use Rattle.std.specs.List.Sorted.{IsStrictlyIncreasing};
ghost use Rattle.cim_model.specs.Model.{is_of};
ghost use Rattle.cim_model.specs.Stands.{Stands};
ghost use Rattle.cim_words.specs.Groups as groups;
ghost use Rattle.room_words.specs.Overlay.{position_number};
ghost use Rattle.room_words.specs.Items.{item_number};
ghost use Rattle.room_words.specs.declared.items.TempItem.{TempItem};
ghost use Rattle.room_words.specs.declared.overlay.Position.{Position};
ghost use Rattle.temporary.specs.Lost.{IsFirstLost};
ghost use Rattle.temporary.specs.Parts as parts;
ghost use Rattle.room_words.specs.declared.lost.Lost.{Lost};

use crate::items::{does_stand, is_good};
use cim_model::marks_divide_segments;
use cim_records::Index;
use cim_words::{Id, MOST_ITEMS};
use room_words::{Lost, Overlay, Position, TempItem, places_are_compared};

/// Whether an overlay stands on the model of an index. Each item is compared with each other one.
pub fn overlay_stands(index: &Index, overlay: &Overlay) -> bool
    ensures { IsTrue result ↔ Stands index.now overlay.now }
{
    index.set();
    marks_divide_segments();
    places_are_compared();
    passes(index, overlay)
}

/// The first item that does not stand on the model of an index, else the first position that does not. No two items have one
/// identifier.
pub fn first_lost(index: &Index, overlay: &Overlay) -> Option<Lost>
    requires { IsDistinct nat_eq (map item_number overlay.now.items) }
    ensures { IsFirstLost index.now overlay.now (option_map (λ (lost : Lost). lost.id) result) }
{
    index.set();
    marks_divide_segments();
    match first_item(index, overlay) {
        Some(item) => Some(Lost { id: item.id() }),
        None => Some(Lost {
            id: first_position(index, overlay)?.switch,
        }),
    }
}

/// The first item that does not stand.
fn first_item<'a>(index: &Index, overlay: &'a Overlay) -> Option<&'a TempItem>
    ensures { option_copied result ≡ find (λ (one : TempItem). not (parts.does_stand index.now overlay.now one)) overlay.now.items }
{
    overlay
        .items
        .as_slice()
        .iter()
        .find(|item| !does_stand(index, overlay, item))
}

/// The first position that is not of a switch of the model.
fn first_position<'a>(index: &Index, overlay: &'a Overlay) -> Option<&'a Position>
    ensures { option_copied result ≡ find (λ (position : Position). not (parts.is_of_switch index.now position)) overlay.now.positions }
{
    overlay
        .positions
        .as_slice()
        .iter()
        .find(|position| !is_switch(index, position.switch))
}

/// Whether an overlay passes each test, those of the whole first.
fn passes(index: &Index, overlay: &Overlay) -> bool
    ensures { IsTrue result ↔ parts.Passes index.now overlay.now }
{
    let items = overlay.items.as_slice();
    let positions = overlay.positions.as_slice();
    items.len() <= MOST_ITEMS
        && are_alone(items)
        && are_of_switches(index, positions)
        && ascend(positions)
        && are_good(index, overlay)
}

/// Whether no two items have one identifier.
fn are_alone(items: &[TempItem]) -> bool
    ensures { result ≡ list_all (parts.is_alone items.now) items.now }
{
    items.iter().all(|item| is_alone(items, item.id()))
}

/// Whether just one item has an identifier.
fn is_alone(items: &[TempItem], id: Id) -> bool
    ensures { result ≡ (length (filter (parts.has_number id.number) items.now) == 1) }
{
    count_of(items, id) == 1
}

/// How many items have an identifier.
fn count_of(items: &[TempItem], id: Id) -> usize
    ensures { result ≡ length (filter (parts.has_number id.number) items.now) }
{
    items
        .iter()
        .filter(|item| item.id().number == id.number)
        .count()
}

/// Whether each position is that of a switch of the model.
fn are_of_switches(index: &Index, positions: &[Position]) -> bool
    ensures { result ≡ list_all (parts.is_of_switch index.now) positions.now }
{
    positions
        .iter()
        .all(|position| is_switch(index, position.switch))
}

/// Whether the identifier is that of a switch.
pub fn is_switch(index: &Index, id: Id) -> bool
    ensures { result ≡ is_of index.now groups.is_switch id.number }
{
    match index.class_of(id) {
        Some(class) => class.is_switch(),
        None => false,
    }
}

/// Whether positions ascend by switch.
fn ascend(positions: &[Position]) -> bool
    ensures { IsTrue result ↔ IsStrictlyIncreasing (map position_number positions.now) }
{
    for place in 1..positions.len() {
        if positions[place - 1].switch.number >= positions[place].switch.number {
            return false;
        }
    }
    true
}

/// Whether each item is good.
fn are_good(index: &Index, overlay: &Overlay) -> bool
    ensures { result ≡ list_all (parts.is_good index.now overlay.now) overlay.now.items }
{
    overlay
        .items
        .as_slice()
        .iter()
        .all(|item| is_good(index, overlay, item))
}
