//! The terminals of a star, with their places and phases.

ghost use Rattle.std.specs.Prelude.{◌≡◌, map, IfOk};
ghost use Rattle.cim_model.specs.Live.{terms_of};
ghost use Rattle.cim_model.specs.Network.{terminals_by_side};
ghost use Rattle.link_rules.specs.Inputs as spec;
ghost use Rattle.link_rules.specs.Parts.{real_spoke, side_spoke};
ghost use Rattle.room_words.specs.Items.{standing};

use crate::terms::real;
use cim_records::Index;
use cim_words::{Id, Listed, NoMemory};
use graph_pages::{Spoke, SpokePhases, Spokes};
use room_words::{Anchor, Overlay, TempItem, Term};
use std::alloc::Global;

/// The terminals of equipment or an item with their places and phases, in order of its sides.
pub(crate) fn spokes_of(
    alloc: Global,
    index: &Index,
    overlay: &Overlay,
    id: Id,
) -> Result<Spokes, NoMemory>
    ensures { IfOk result (λ spokes. spokes ≡ map (spec.spoke index.now overlay.now) (terms_of index.now overlay.now id.number)) }
{
    match overlay.item(id) {
        Some(item) => side_spokes(alloc, item),
        None => real_spokes(alloc, index, id),
    }
}

/// The sides of an item with their places and phases.
fn side_spokes(alloc: Global, item: &TempItem) -> Result<Spokes, NoMemory>
    ensures { IfOk result (λ spokes. spokes ≡ map (side_spoke item.now) (standing item.now)) }
{
    let mut spokes = Vec::with_capacity(alloc, 2)?;
    spokes.push(side_spoke(item, item.side_one()))?;
    if let Some(standing) = item.side_two() {
        spokes.push(side_spoke(item, standing))?;
    }
    Ok(Listed::of(spokes))
}

/// A side of an item at its place; a cut's and a clamp's have the phases of their segment.
fn side_spoke(item: &TempItem, standing: (Anchor, Term)) -> Spoke
    ensures { result ≡ side_spoke item.now standing }
{
    let (place, term) = standing;
    Spoke {
        term,
        at: Some(place),
        phases: match item.phases() {
            Some(phases) => SpokePhases::Own(phases),
            None => SpokePhases::OfSegment,
        },
    }
}

/// The terminals of equipment with their nodes and phases.
fn real_spokes(alloc: Global, index: &Index, owner: Id) -> Result<Spokes, NoMemory>
    ensures { IfOk result (λ spokes. spokes ≡ map (real_spoke index.now owner.number) (terminals_by_side index.now owner.number)) }
{
    let spokes = index
        .terminals_of(owner)
        .iter()
        .map(|terminal| real_spoke(index, owner, *terminal))
        .collect(alloc)?;
    Ok(Listed::of(spokes))
}

/// A terminal with its node and its phases.
fn real_spoke(index: &Index, owner: Id, terminal: Id) -> Spoke
    ensures { result ≡ real_spoke index.now owner.number terminal.number }
{
    Spoke {
        term: real(owner, terminal),
        at: index.node_of(terminal).map(Anchor::Node),
        phases: SpokePhases::Own(index.phases_of(terminal)),
    }
}
