//! The refusals of an act, in their order.

ghost use Rattle.std.specs.Prelude.{◌≡◌};
ghost use Rattle.cim_model.specs.Refusals as spec;
ghost use Rattle.switching.specs.Parts as parts;

use crate::anchors::{crowded_place, in_use, no_anchor, no_phase, one_anchor};
use crate::marks::{beyond, crowded_segment, same_place};
use crate::targets::{already, full, kind, not_held, permanent, taken, unknown};
use cim_records::Index;
use room_words::{Act, ActRefusal, Overlay};

/// The first refusal that holds. None is asked before the earlier ones have been.
pub(crate) fn first_refusal(index: &Index, overlay: &Overlay, act: &Act) -> Option<ActRefusal>
    ensures { result ≡ spec.refusal_of index.now overlay.now act.now }
{
    of_target(index, overlay, act)
        .or_else(|| of_place(index, overlay, act))
        .or_else(|| of_limits(index, overlay, act))
}

/// The first refusal for the sake of what is acted on or placed.
fn of_target(index: &Index, overlay: &Overlay, act: &Act) -> Option<ActRefusal>
    ensures { result ≡ parts.of_target index.now overlay.now act.now }
{
    unknown(index, overlay, act)
        .or_else(|| taken(index, overlay, act))
        .or_else(|| kind(index, overlay, act))
        .or_else(|| permanent(index, act))
        .or_else(|| already(index, overlay, act))
        .or_else(|| not_held(overlay, act))
}

/// The first refusal for the sake of where something is to be placed.
fn of_place(index: &Index, overlay: &Overlay, act: &Act) -> Option<ActRefusal>
    ensures { result ≡ parts.of_place index.now overlay.now act.now }
{
    beyond(index, act)
        .or_else(|| same_place(index, overlay, act))
        .or_else(|| no_anchor(index, overlay, act))
        .or_else(|| one_anchor(act))
        .or_else(|| no_phase(act))
}

/// The first refusal for the sake of how much there is.
fn of_limits(index: &Index, overlay: &Overlay, act: &Act) -> Option<ActRefusal>
    ensures { result ≡ parts.of_limits index.now overlay.now act.now }
{
    crowded(index, overlay, act)
        .or_else(|| in_use(overlay, act))
        .or_else(|| full(overlay, act))
}

/// The segment has as many marks as it may, or the place of an anchor as many terminals.
fn crowded(index: &Index, overlay: &Overlay, act: &Act) -> Option<ActRefusal>
    ensures { result ≡ spec.crowded index.now overlay.now act.now }
{
    let item = act.placed()?;
    crowded_segment(index, overlay, &item).or_else(|| crowded_place(index, overlay, &item))
}
