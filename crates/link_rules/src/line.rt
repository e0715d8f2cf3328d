//! The line of a segment: the terminals on it, section by section.

ghost use Rattle.std.specs.Prelude.{◌≡◌, ◌++◌, IfOk, OnOk, map};
ghost use Rattle.std.specs.List.{filter_map};
ghost use Rattle.cim_model.specs.Live.{PassesAlong};
ghost use Rattle.cim_model.specs.Marks.{marks_on};
ghost use Rattle.cim_model.specs.Sections as spec;
ghost use Rattle.cim_model.specs.Stands.{Stands};
ghost use Rattle.link_rules.specs.Inputs.{IsPassBy, inputs};
ghost use Rattle.link_rules.specs.Parts.{mark_on};
ghost use Rattle.room_words.specs.Items.{as_list};

use crate::laws::{has_no_fault, lines_list_terminals_at_spots};
use crate::terms::term_at;
use cim_model::{item_mark, marks_divide_live_segments};
use cim_records::Index;
use cim_words::{Id, Listed, NoMemory};
use graph_pages::{Pass, Sections};
use room_words::{Overlay, TempItem, Term};
use segment_cuts::{Mark, Section, Spot, sections};
use std::alloc::Global;

/// The line of a segment, from its terminal 1 to its terminal 2.
pub(crate) fn line_of(
    alloc: Global,
    index: &Index,
    overlay: &Overlay,
    segment: Id,
) -> Result<Pass, NoMemory>
    requires { Stands index.now overlay.now }
    ensures { IfOk result (IsPassBy PassesAlong (inputs index.now overlay.now segment.number)) }
{
    has_no_fault(index);
    marks_divide_live_segments();
    lines_list_terminals_at_spots();
    let marks = marks_on(alloc, index, overlay, segment)?;
    let divided = sections(alloc, &marks)?;
    Ok(Pass::Line {
        phases: index.segment_phases(segment),
        sections: terms_of_all(alloc, index, overlay, segment, &divided)?,
    })
}

/// The marks on a segment: those of the model, and then those of the items.
fn marks_on(
    alloc: Global,
    index: &Index,
    overlay: &Overlay,
    segment: Id,
) -> Result<Vec<Mark>, NoMemory>
    ensures { IfOk result (λ marks. marks.items ≡ marks_on index.now overlay.now segment.number) }
{
    let mut marks = Vec::from_slice(alloc, index.marks_of(segment))?;
    for item in overlay.items.as_slice() {
        push_mark(&mut marks, item, segment)?;
    }
    Ok(marks)
}

/// Adds an item that is a mark of a segment.
fn push_mark(marks: &mut Vec<Mark>, item: &TempItem, segment: Id) -> Result<(), NoMemory>
    ensures { OnOk result (marks.new.items ≡ marks.old.items ++ as_list (mark_on segment.number item.now)) }
{
    if let Some(mark) = mark_on(item, segment) {
        marks.push(mark)?;
    }
    Ok(())
}

/// An item as a mark of a segment, if it is one.
fn mark_on(item: &TempItem, segment: Id) -> Option<Mark>
    ensures { result ≡ mark_on segment.number item.now }
{
    match item.segment() {
        Some(on) if on.number == segment.number => item_mark(item),
        _ => None,
    }
}

/// The terminals in some sections of a segment.
fn terms_of_all(
    alloc: Global,
    index: &Index,
    overlay: &Overlay,
    segment: Id,
    divided: &[Section],
) -> Result<Sections, NoMemory>
    ensures { IfOk result (λ sections. sections ≡ map (filter_map (spec.term_at index.now overlay.now segment.number)) divided.now) }
{
    let mut sections = Vec::with_capacity(alloc, divided.len())?;
    for section in divided {
        let terms = terms_on(alloc, index, overlay, segment, section.as_slice())?;
        sections.push(Listed::of(terms))?;
    }
    Ok(Listed::of(sections))
}

/// The terminals at some spots of a segment, in their order.
fn terms_on(
    alloc: Global,
    index: &Index,
    overlay: &Overlay,
    segment: Id,
    spots: &[Spot],
) -> Result<Vec<Term>, NoMemory>
    ensures { IfOk result (λ terms. terms.items ≡ filter_map (spec.term_at index.now overlay.now segment.number) spots.now) }
{
    spots
        .iter()
        .filter_map(|spot| term_at(index, overlay, segment, *spot))
        .collect(alloc)
}
