//! What is acted on, and the identifier of what is placed.

ghost use Rattle.std.specs.Prelude.{◌≡◌};
ghost use Rattle.cim_model.specs.Live as live;
ghost use Rattle.cim_model.specs.Model.{is_of};
ghost use Rattle.cim_model.specs.Refusals as spec;
ghost use Rattle.room_words.specs.Items.{item_open};

use cim_records::Index;
use cim_words::{Id, MOST_ITEMS};
use room_words::{Act, ActRefusal, Overlay, TempItem};
use temporary::{is_segment, is_switch};

/// What is acted on is no equipment of the model and no item.
pub(crate) fn unknown(index: &Index, overlay: &Overlay, act: &Act) -> Option<ActRefusal>
    ensures { result ≡ spec.unknown index.now overlay.now act.now }
{
    let id = act.acted_on()?;
    refused_if(!is_live(index, overlay, id), ActRefusal::Unknown(id))
}

/// The identifier of what is placed is a subject of the model or an item.
pub(crate) fn taken(index: &Index, overlay: &Overlay, act: &Act) -> Option<ActRefusal>
    ensures { result ≡ spec.taken index.now overlay.now act.now }
{
    let id = act.placed()?.id();
    refused_if(is_taken(index, overlay, id), ActRefusal::Taken(id))
}

/// What is opened or closed is no switch, what is released is no switch of the model, or what is cut or clamped is no line segment.
pub(crate) fn kind(index: &Index, overlay: &Overlay, act: &Act) -> Option<ActRefusal>
    ensures { result ≡ spec.kind index.now overlay.now act.now }
{
    match *act {
        Act::OpenSwitch(id) | Act::CloseSwitch(id) => refused_if(
            !is_switched(index, overlay, id),
            ActRefusal::Kind(id),
        ),
        Act::Release(id) => refused_if(!is_switch(index, id), ActRefusal::Kind(id)),
        Act::Cut { segment, .. } | Act::Clamp { segment, .. } => refused_if(
            !is_segment(index, segment),
            ActRefusal::Kind(segment),
        ),
        Act::Remove(_) | Act::Jumper { .. } | Act::Ground { .. } => None,
    }
}

/// What is to be taken away is equipment of the model.
pub(crate) fn permanent(index: &Index, act: &Act) -> Option<ActRefusal>
    ensures { result ≡ spec.permanent index.now act.now }
{
    match *act {
        Act::Remove(id) => refused_if(index.is_equipment(id), ActRefusal::Permanent(id)),
        _ => None,
    }
}

/// What is opened is open now, or what is closed is closed now.
pub(crate) fn already(index: &Index, overlay: &Overlay, act: &Act) -> Option<ActRefusal>
    ensures { result ≡ spec.already index.now overlay.now act.now }
{
    match *act {
        Act::OpenSwitch(id) => refused_if(is_open(index, overlay, id), ActRefusal::Already),
        Act::CloseSwitch(id) => refused_if(!is_open(index, overlay, id), ActRefusal::Already),
        _ => None,
    }
}

/// No position is in force for the switch that is released.
pub(crate) fn not_held(overlay: &Overlay, act: &Act) -> Option<ActRefusal>
    ensures { result ≡ spec.not_held overlay.now act.now }
{
    match *act {
        Act::Release(id) => refused_if(overlay.position(id).is_none(), ActRefusal::NotHeld),
        _ => None,
    }
}

/// There are as many items as there may be, and one is to be placed.
pub(crate) fn full(overlay: &Overlay, act: &Act) -> Option<ActRefusal>
    ensures { result ≡ spec.full overlay.now act.now }
{
    refused_if(
        act.placed().is_some() && MOST_ITEMS <= overlay.items.len(),
        ActRefusal::Full,
    )
}

/// A refusal where a test holds.
pub(crate) fn refused_if(holds: bool, why: ActRefusal) -> Option<ActRefusal>
    ensures { result ≡ spec.refused_if holds why }
{
    if holds { Some(why) } else { None }
}

/// Whether the identifier is that of equipment or of an item.
fn is_live(index: &Index, overlay: &Overlay, id: Id) -> bool
    ensures { result ≡ live.is_live index.now overlay.now id.number }
{
    overlay.item(id).is_some() || index.is_equipment(id)
}

/// Whether the identifier is that of a subject of the model or of an item.
fn is_taken(index: &Index, overlay: &Overlay, id: Id) -> bool
    ensures { result ≡ spec.is_taken index.now overlay.now id.number }
{
    index.is_subject(id) || overlay.item(id).is_some()
}

/// Whether the identifier is that of a switch, or of a temporary cut or jumper.
fn is_switched(index: &Index, overlay: &Overlay, id: Id) -> bool
    ensures { result ≡ spec.is_switched index.now overlay.now id.number }
{
    is_switch(index, id)
        || match overlay.item(id) {
            Some(item) => is_item_switched(item),
            None => false,
        }
}

/// Whether an item is opened and closed: a cut and a jumper are.
fn is_item_switched(item: &TempItem) -> bool
    ensures { result ≡ spec.is_item_switched item.now }
{
    match item {
        TempItem::Cut { .. } | TempItem::Jumper { .. } => true,
        TempItem::Clamp { .. } | TempItem::Ground { .. } => false,
    }
}

/// Whether a switch is open: as an item says, else by the position in force, else by the model.
fn is_open(index: &Index, overlay: &Overlay, id: Id) -> bool
    ensures { result ≡ live.is_open index.now overlay.now id.number }
{
    match overlay.item(id) {
        Some(item) => is_item_open(item),
        None => overlay.position(id).unwrap_or(index.open_of(id)),
    }
}

/// Whether an item is open: nothing goes through a clamp or a ground.
fn is_item_open(item: &TempItem) -> bool
    ensures { result ≡ item_open item.now }
{
    match *item {
        TempItem::Cut { is_open, .. } | TempItem::Jumper { is_open, .. } => is_open,
        TempItem::Clamp { .. } | TempItem::Ground { .. } => true,
    }
}
