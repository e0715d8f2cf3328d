//! The stars of equipment and of items.

ghost use Rattle.std.specs.Prelude.{◌≡◌, option_map, unwrap_or, IfOk};
ghost use Rattle.cim_model.specs.Live as live;
ghost use Rattle.cim_model.specs.Model.{is_of};
ghost use Rattle.cim_model.specs.Network.{class_in};
ghost use Rattle.cim_model.specs.Stands.{Stands};
ghost use Rattle.cim_model.specs.Values.{as_id};
ghost use Rattle.cim_words.specs.Groups as groups;
ghost use Rattle.cim_words.specs.declared.class.Class.TheVariants as class;
ghost use Rattle.link_rules.specs.Inputs.{IsPass, inputs};
ghost use Rattle.link_rules.specs.Map.{IsStarAt};
ghost use Rattle.link_rules.specs.Parts.{class_pass, item_pass, switch_open};
ghost use Rattle.room_words.specs.Items.{item_class};
ghost use Rattle.room_words.specs.Overlay.{item_or};

use crate::line::line_of;
use crate::spokes::spokes_of;
use cim_records::Index;
use cim_words::{Class, Id, NoMemory};
use graph_pages::{Pass, Star};
use room_words::{Overlay, TempItem};
use std::alloc::Global;

/// The star of equipment or an item; none of what is neither. The items of the overlay are gone through for it.
pub fn star_of(
    alloc: Global,
    index: &Index,
    overlay: &Overlay,
    id: Id,
) -> Result<Option<Star>, NoMemory>
    requires { Stands index.now overlay.now }
    ensures { IfOk result (IsStarAt index.now overlay.now id.number) }
{
    if !is_live(index, overlay, id) {
        return Ok(None);
    }
    Ok(Some(Star {
        id,
        class: class_of(index, overlay, id),
        on: stands_on(index, overlay, id),
        spokes: spokes_of(alloc, index, overlay, id)?,
        pass: pass_of(alloc, index, overlay, id)?,
    }))
}

/// Whether the identifier is that of equipment or of an item.
fn is_live(index: &Index, overlay: &Overlay, id: Id) -> bool
    ensures { result ≡ live.is_live index.now overlay.now id.number }
{
    overlay.item(id).is_some() || index.is_equipment(id)
}

/// The class of equipment or of an item.
fn class_of(index: &Index, overlay: &Overlay, id: Id) -> Class
    ensures { result ≡ item_or overlay.now id.number item_class (unwrap_or (class_in index.now id.number) class.Other) }
{
    match overlay.item(id) {
        Some(item) => item.class(),
        None => index.class_of(id).unwrap_or(Class::Other),
    }
}

/// The segment on which a cut or a clamp stands.
fn stands_on(index: &Index, overlay: &Overlay, id: Id) -> Option<Id>
    ensures { result ≡ option_map as_id (live.stands_on index.now overlay.now id.number) }
{
    match overlay.item(id) {
        Some(item) => item.segment(),
        None => index.segment_of(id),
    }
}

/// How current passes between the terminals of equipment or an item.
fn pass_of(alloc: Global, index: &Index, overlay: &Overlay, id: Id) -> Result<Pass, NoMemory>
    requires { Stands index.now overlay.now }
    ensures { IfOk result (IsPass (inputs index.now overlay.now id.number)) }
{
    match overlay.item(id) {
        Some(item) => Ok(item_pass(item)),
        None if is_segment(index, id) => line_of(alloc, index, overlay, id),
        None => Ok(class_pass(index, overlay, id)),
    }
}

/// How current passes between the terminals of an item: a cut and a jumper are switches.
fn item_pass(item: &TempItem) -> Pass
    ensures { result ≡ item_pass item.now }
{
    match *item {
        TempItem::Cut { is_open, .. } | TempItem::Jumper { is_open, .. } => Pass::Switch {
            is_open,
        },
        TempItem::Clamp { .. } | TempItem::Ground { .. } => Pass::Nothing,
    }
}

/// Whether the identifier is that of a line segment.
fn is_segment(index: &Index, id: Id) -> bool
    ensures { result ≡ is_of index.now groups.is_segment id.number }
{
    match index.class_of(id) {
        Some(class) => class.is_segment(),
        None => false,
    }
}

/// How current passes between the terminals of equipment that is no segment.
fn class_pass(index: &Index, overlay: &Overlay, id: Id) -> Pass
    ensures { result ≡ class_pass index.now overlay.now id.number }
{
    let class = index.class_of(id).unwrap_or(Class::Other);
    if class.is_switch() {
        Pass::Switch {
            is_open: is_open(index, overlay, id),
        }
    } else if class.is_passing() {
        Pass::Same
    } else if class.is_transformer() {
        Pass::Transformer
    } else {
        Pass::Nothing
    }
}

/// Whether a switch of the model is open: by the position in force, else as the model states.
fn is_open(index: &Index, overlay: &Overlay, switch: Id) -> bool
    ensures { result ≡ switch_open index.now overlay.now switch.number }
{
    overlay.position(switch).unwrap_or(index.open_of(switch))
}
