//! The places at which jumpers and grounds are anchored.

ghost use Rattle.std.specs.Prelude.{◌≡◌, ◌+◌, length, nat_le, is_some};
ghost use Rattle.std.specs.List.{filter, filter_map, list_any};
ghost use Rattle.cim_model.specs.Live as live;
ghost use Rattle.cim_model.specs.Model.{is_of};
ghost use Rattle.cim_model.specs.Network.{owner_of};
ghost use Rattle.cim_model.specs.Stated.{terminals_at};
ghost use Rattle.cim_words.specs.Groups as groups;
ghost use Rattle.cim_words.specs.declared.identifier.Id.{Id};
ghost use Rattle.room_words.specs.Items.{makes};
ghost use Rattle.temporary.specs.Parts as parts;

use cim_records::Index;
use cim_words::{Id, MOST_AT_PLACE};
use room_words::{Anchor, Overlay, TempItem, places_are_compared};

/// Whether an anchor is a place, and not too many terminals stand there.
pub(crate) fn takes(index: &Index, overlay: &Overlay, place: Anchor) -> bool
    ensures { result ≡ parts.takes index.now overlay.now place }
{
    is_place(index, overlay, place) && has_at_most_terminals(index, overlay, place, MOST_AT_PLACE)
}

/// Whether this is a node of the model, or a side of a cut or clamp of the overlay.
pub fn is_place(index: &Index, overlay: &Overlay, place: Anchor) -> bool
    ensures { result ≡ live.is_place index.now overlay.now place }
{
    match place {
        Anchor::Node(node) => is_node(index, node),
        Anchor::Side(id, side) => is_made(overlay.items.as_slice(), Anchor::Side(id, side)),
    }
}

/// Whether the identifier is that of a node.
fn is_node(index: &Index, id: Id) -> bool
    ensures { result ≡ is_of index.now groups.is_node id.number }
{
    match index.class_of(id) {
        Some(class) => class.is_node(),
        None => false,
    }
}

/// Whether a place is a side of some cut or clamp.
fn is_made(items: &[TempItem], place: Anchor) -> bool
    ensures { result ≡ list_any (makes place) items.now }
{
    items.iter().any(|item| item.makes(place))
}

/// Whether no more than so many terminals stand at a place, those of the items among them.
pub fn has_at_most_terminals(index: &Index, overlay: &Overlay, place: Anchor, most: usize) -> bool
    ensures { result ≡ nat_le (length (live.terms_at index.now overlay.now place)) most }
{
    let items = overlay.items.as_slice();
    fit(
        of_model(index, place),
        first_at(items, place),
        second_at(items, place),
        most,
    )
}

/// Whether terminals of the model, first sides and second sides are together no more than so many.
fn fit(of_model: usize, first: usize, second: usize, most: usize) -> bool
    ensures { result ≡ nat_le (of_model + first + second) most }
{
    of_model <= most && first <= most - of_model && second <= most - of_model - first
}

/// How many terminals of the model stand at a place.
fn of_model(index: &Index, place: Anchor) -> usize
    ensures { result ≡ length (live.real_terms_at index.now place) }
{
    match place {
        Anchor::Node(node) => at_node(index, node),
        Anchor::Side(..) => 0,
    }
}

/// How many terminals with an owner stand at a node.
fn at_node(index: &Index, node: Id) -> usize
    ensures { result ≡ length (filter_map (live.owned index.now) (terminals_at index.now node.number)) }
{
    owned(index, index.at_node(node))
}

/// How many of these terminals have an owner.
fn owned(index: &Index, terminals: &[Id]) -> usize
    ensures { result ≡ length (filter (λ (terminal : Id). is_some (owner_of index.now terminal.number)) terminals.now) }
{
    terminals
        .iter()
        .filter(|terminal| index.owner_of(**terminal).is_some())
        .count()
}

/// How many of these items have side 1 at a place.
fn first_at(items: &[TempItem], place: Anchor) -> usize
    ensures { result ≡ length (filter (parts.is_first_at place) items.now) }
{
    items.iter().filter(|item| is_first_at(item, place)).count()
}

/// How many of these items have side 2 at a place.
fn second_at(items: &[TempItem], place: Anchor) -> usize
    ensures { result ≡ length (filter (parts.is_second_at place) items.now) }
{
    items
        .iter()
        .filter(|item| is_second_at(item, place))
        .count()
}

/// Whether side 1 of an item stands at a place.
fn is_first_at(item: &TempItem, place: Anchor) -> bool
    ensures { result ≡ parts.is_first_at place item.now }
{
    places_are_compared();
    item.side_one().0 == place
}

/// Whether side 2 of an item stands at a place, if it has one.
fn is_second_at(item: &TempItem, place: Anchor) -> bool
    ensures { result ≡ parts.is_second_at place item.now }
{
    places_are_compared();
    match item.side_two() {
        Some((at, _)) => at == place,
        None => false,
    }
}
