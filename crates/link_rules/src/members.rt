//! The terminals at places.

ghost use Rattle.std.specs.Prelude.{◌≡◌, ◌++◌, IfOk, OnOk};
ghost use Rattle.std.specs.List.{filter_map, list_any};
ghost use Rattle.cim_model.specs.Live as live;
ghost use Rattle.cim_model.specs.Model.{is_of};
ghost use Rattle.cim_model.specs.Stands.{Stands};
ghost use Rattle.cim_model.specs.Stated.{terminals_at};
ghost use Rattle.cim_words.specs.Groups as groups;
ghost use Rattle.cim_words.specs.declared.identifier.Id.{Id};
ghost use Rattle.link_rules.specs.Map.{IsEntry};
ghost use Rattle.room_words.specs.Items.{item_terms_at, makes};

use crate::laws::has_no_fault;
use crate::terms::real;
use cim_model::terminals_stand_where_listed;
use cim_records::Index;
use cim_words::{Id, Listed, NoMemory};
use room_words::{
    Anchor, Members, Overlay, TempItem, Term, places_are_compared, terms_are_ordered,
};
use statement_set::sort_once;
use std::alloc::Global;

/// The terminals at a place, in ascending order of owner and key; none of what is no place. The items of the overlay are gone through
/// for it.
pub fn members_of(
    alloc: Global,
    index: &Index,
    overlay: &Overlay,
    place: Anchor,
) -> Result<Option<Members>, NoMemory>
    requires { Stands index.now overlay.now }
    ensures { IfOk result (IsEntry index.now overlay.now place) }
{
    if !is_place(index, overlay, place) {
        return Ok(None);
    }
    has_no_fault(index);
    terminals_stand_where_listed();
    terms_are_ordered();
    let mut terms = terms_at(alloc, index, overlay, place)?;
    sort_once(&mut terms);
    Ok(Some(Listed::of(terms)))
}

/// Whether this is a node of the model, or a side of a cut or clamp of the overlay.
fn is_place(index: &Index, overlay: &Overlay, place: Anchor) -> bool
    ensures { result ≡ live.is_place index.now overlay.now place }
{
    match place {
        Anchor::Node(node) => is_node(index, node),
        Anchor::Side(id, side) => is_made(overlay, Anchor::Side(id, side)),
    }
}

/// Whether a place is a side of some cut or clamp of the overlay.
fn is_made(overlay: &Overlay, place: Anchor) -> bool
    ensures { result ≡ list_any (makes place) overlay.now.items }
{
    for item in overlay.items.as_slice() {
        if item.makes(place) {
            return true;
        }
    }
    false
}

/// Whether the identifier is that of a node.
fn is_node(index: &Index, id: Id) -> bool
    ensures { result ≡ is_of index.now groups.is_node id.number }
{
    match index.class_of(id) {
        Some(class) => class.is_node(),
        None => false,
    }
}

/// The terminals at a place: those of the model, and then those of the items.
fn terms_at(
    alloc: Global,
    index: &Index,
    overlay: &Overlay,
    place: Anchor,
) -> Result<Vec<Term>, NoMemory>
    ensures { IfOk result (λ terms. terms.items ≡ live.terms_at index.now overlay.now place) }
{
    let mut terms = real_terms_at(alloc, index, place)?;
    for item in overlay.items.as_slice() {
        push_terms(&mut terms, item, place)?;
    }
    Ok(terms)
}

/// Adds the terminals of an item that stand at a place.
fn push_terms(terms: &mut Vec<Term>, item: &TempItem, place: Anchor) -> Result<(), NoMemory>
    ensures { OnOk result (terms.new.items ≡ terms.old.items ++ item_terms_at place item.now) }
{
    places_are_compared();
    let (at, term) = item.side_one();
    if at == place {
        terms.push(term)?;
    }
    if let Some((at, term)) = item.side_two() {
        if at == place {
            terms.push(term)?;
        }
    }
    Ok(())
}

/// The terminals of the model at a place, each with its owner.
fn real_terms_at(alloc: Global, index: &Index, place: Anchor) -> Result<Vec<Term>, NoMemory>
    ensures { IfOk result (λ terms. terms.items ≡ live.real_terms_at index.now place) }
{
    match place {
        Anchor::Node(node) => at_node(alloc, index, node),
        Anchor::Side(..) => Ok(Vec::new(alloc)),
    }
}

/// The terminals at a node, each with its owner.
fn at_node(alloc: Global, index: &Index, node: Id) -> Result<Vec<Term>, NoMemory>
    ensures { IfOk result (λ terms. terms.items ≡ filter_map (live.owned index.now) (terminals_at index.now node.number)) }
{
    owned(alloc, index, index.at_node(node))
}

/// These terminals with their owners; what has no owner is left out.
fn owned(alloc: Global, index: &Index, terminals: &[Id]) -> Result<Vec<Term>, NoMemory>
    ensures { IfOk result (λ terms. terms.items ≡ filter_map (λ (terminal : Id). live.owned index.now terminal.number) terminals.now) }
{
    terminals
        .iter()
        .filter_map(|terminal| owned_term(index, *terminal))
        .collect(alloc)
}

/// A terminal with its owner, if it has one.
fn owned_term(index: &Index, terminal: Id) -> Option<Term>
    ensures { result ≡ live.owned index.now terminal.number }
{
    Some(real(index.owner_of(terminal)?, terminal))
}
