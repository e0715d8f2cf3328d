//! Cuts and clamps that are to be placed, among the marks of their segment.

ghost use Rattle.std.specs.Prelude.{◌≡◌, ◌++◌, None, find, fold, option_map};
ghost use Rattle.std.specs.List.{filter, filter_map};
ghost use Rattle.cim_model.specs.Refusals as spec;
ghost use Rattle.cim_words.specs.declared.length.Length.{Length};
ghost use Rattle.segment_cuts.specs.declared.mark.Mark.{Mark};
ghost use Rattle.switching.specs.Parts as parts;
ghost use Rattle.temporary.specs.Parts.{mark_on};

use crate::targets::refused_if;
use cim_records::Index;
use cim_words::{Id, Length, MOST_LENGTH, MOST_MARKS};
use room_words::{Act, ActRefusal, Overlay, TempItem};
use segment_cuts::Mark;
use temporary::{has_at_most_marks, mark_on};

/// A cut or a clamp would stand beyond the limit, or beyond the length that its segment states.
pub(crate) fn beyond(index: &Index, act: &Act) -> Option<ActRefusal>
    ensures { result ≡ spec.beyond index.now act.now }
{
    match *act {
        Act::Cut {
            segment,
            length,
            ..
        }
        | Act::Clamp {
            segment,
            length,
            ..
        } => refused_if(
            is_beyond(length, index.length_of(segment)),
            ActRefusal::Length,
        ),
        _ => None,
    }
}

/// Whether a length is beyond the limit, or beyond the length that is stated.
fn is_beyond(at: Length, stated: Option<Length>) -> bool
    ensures { result ≡ spec.is_beyond at.mm (option_map (λ (limit : Length). limit.mm) stated) }
{
    MOST_LENGTH < at.mm
        || match stated {
            Some(limit) => limit.mm < at.mm,
            None => false,
        }
}

/// A cut would stand where another mark does, the least of which is named, or a clamp where a cut does.
pub(crate) fn same_place(index: &Index, overlay: &Overlay, act: &Act) -> Option<ActRefusal>
    ensures { result ≡ spec.same_place index.now overlay.now act.now }
{
    let other = in_the_way(index, overlay, act)?;
    Some(ActRefusal::SamePlace(other.id))
}

/// The mark that is in the way of what is placed on a segment.
fn in_the_way(index: &Index, overlay: &Overlay, act: &Act) -> Option<Mark>
    ensures { result ≡ parts.in_the_way index.now overlay.now act.now }
{
    match *act {
        Act::Cut {
            segment,
            length,
            ..
        } => least_at(index, overlay, segment, length),
        Act::Clamp {
            segment,
            length,
            ..
        } => cut_at(index, overlay, segment, length),
        _ => None,
    }
}

/// The mark with the least identifier among those of a segment at a length.
fn least_at(index: &Index, overlay: &Overlay, segment: Id, at: Length) -> Option<Mark>
    ensures { result ≡ spec.least (spec.marks_at index.now overlay.now segment.number at.mm) }
{
    let least = least_mark(index.marks_of(segment), at);
    least_with(least, overlay.items.as_slice(), segment, at)
}

/// The mark with the least identifier among those of these that stand at a length.
fn least_mark(marks: &[Mark], at: Length) -> Option<Mark>
    ensures { result ≡ fold parts.lesser None (filter (parts.is_at at.mm) marks.now) }
{
    marks
        .iter()
        .copied()
        .filter(|mark| mark.length.mm == at.mm)
        .fold(None, lesser)
}

/// The mark with the least identifier, of one and of those of these items that stand on a segment at a length.
fn least_with(least: Option<Mark>, items: &[TempItem], segment: Id, at: Length) -> Option<Mark>
    ensures { result ≡ fold parts.lesser least (filter (parts.is_at at.mm) (filter_map (mark_on segment.number) items.now)) }
{
    items
        .iter()
        .filter_map(|item| mark_on(item, segment))
        .filter(|mark| mark.length.mm == at.mm)
        .fold(least, lesser)
}

/// The first cut among the marks of a segment at a length.
fn cut_at(index: &Index, overlay: &Overlay, segment: Id, at: Length) -> Option<Mark>
    ensures { result ≡ find (λ (one : Mark). one.divides) (spec.marks_at index.now overlay.now segment.number at.mm) }
{
    match cut_mark(index.marks_of(segment), at) {
        Some(cut) => Some(cut),
        None => cut_item(overlay.items.as_slice(), segment, at),
    }
}

/// The first cut among those of these marks that stand at a length.
fn cut_mark(marks: &[Mark], at: Length) -> Option<Mark>
    ensures { result ≡ find (λ (one : Mark). one.divides) (filter (parts.is_at at.mm) marks.now) }
{
    marks
        .iter()
        .copied()
        .filter(|mark| mark.length.mm == at.mm)
        .find(|mark| mark.divides)
}

/// The first cut among those of these items that stand on a segment at a length.
fn cut_item(items: &[TempItem], segment: Id, at: Length) -> Option<Mark>
    ensures { result ≡ find (λ (one : Mark). one.divides) (filter (parts.is_at at.mm) (filter_map (mark_on segment.number) items.now)) }
{
    items
        .iter()
        .filter_map(|item| mark_on(item, segment))
        .filter(|mark| mark.length.mm == at.mm)
        .find(|mark| mark.divides)
}

/// The mark with the lesser identifier, the first where they have one.
fn lesser(first: Option<Mark>, second: Mark) -> Option<Mark>
    ensures { result ≡ parts.lesser first second }
{
    match first {
        Some(mark) if mark.id.number <= second.id.number => Some(mark),
        _ => Some(second),
    }
}

/// The segment of an item has as many marks as it may.
pub(crate) fn crowded_segment(
    index: &Index,
    overlay: &Overlay,
    item: &TempItem,
) -> Option<ActRefusal>
    ensures { result ≡ spec.crowded_segment index.now overlay.now item.now }
{
    let segment = item.segment()?;
    refused_if(
        !has_at_most_marks(index, overlay, segment, MOST_MARKS - 1),
        ActRefusal::Crowded(segment),
    )
}
