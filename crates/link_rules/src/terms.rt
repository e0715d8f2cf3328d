//! The terminals of equipment and items, by side, and what stands on a segment.

ghost use Rattle.std.specs.Prelude.{◌≡◌, option_map};
ghost use Rattle.cim_model.specs.Live.{real, terms_of};
ghost use Rattle.cim_model.specs.Sections.{second, term_at};
ghost use Rattle.cim_model.specs.Network.{first, terminals_by_side};

use cim_records::Index;
use cim_words::Id;
use room_words::{Overlay, Term, TermKey};
use segment_cuts::Spot;

/// A terminal of the model with its owner.
pub(crate) fn real(owner: Id, terminal: Id) -> Term
    ensures { result ≡ real owner.number terminal.number }
{
    Term {
        owner,
        key: TermKey::Real(terminal),
    }
}

/// The terminal at side 1 of a piece of equipment or an item.
fn side_one(index: &Index, overlay: &Overlay, owner: Id) -> Option<Term>
    ensures { result ≡ first (terms_of index.now overlay.now owner.number) }
{
    match overlay.item(owner) {
        Some(item) => Some(item.side_one().1),
        None => real_one(index, owner),
    }
}

/// The terminal at side 2 of a piece of equipment or an item.
fn side_two(index: &Index, overlay: &Overlay, owner: Id) -> Option<Term>
    ensures { result ≡ second (terms_of index.now overlay.now owner.number) }
{
    match overlay.item(owner) {
        Some(item) => item.side_two().map(|standing| standing.1),
        None => real_two(index, owner),
    }
}

/// The first terminal of equipment, in order of its sides.
fn real_one(index: &Index, owner: Id) -> Option<Term>
    ensures { result ≡ option_map (real owner.number) (first (terminals_by_side index.now owner.number)) }
{
    Some(real(owner, *index.terminals_of(owner).first()?))
}

/// The second terminal of equipment, in order of its sides.
fn real_two(index: &Index, owner: Id) -> Option<Term>
    ensures { result ≡ option_map (real owner.number) (second (terminals_by_side index.now owner.number)) }
{
    Some(real(owner, *index.terminals_of(owner).get(1)?))
}

/// The terminal at a spot of a segment.
pub(crate) fn term_at(index: &Index, overlay: &Overlay, segment: Id, spot: Spot) -> Option<Term>
    ensures { result ≡ term_at index.now overlay.now segment.number spot }
{
    match spot {
        Spot::EndOne => side_one(index, overlay, segment),
        Spot::EndTwo => side_two(index, overlay, segment),
        Spot::Clamp(id) | Spot::CutOne(id) => side_one(index, overlay, id),
        Spot::CutTwo(id) => side_two(index, overlay, id),
    }
}
