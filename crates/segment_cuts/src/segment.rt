//! The sections of a line segment, and the section of a spot.

ghost use Rattle.std.specs.Prelude.{◌≡◌, ◌≤◌, IfOk};
ghost use Rattle.std.specs.List.{All};
ghost use Rattle.cim_words.specs.Limits.{most_length};
ghost use Rattle.segment_cuts.specs.Sections as spec;
ghost use Rattle.segment_cuts.specs.Sections.{AreMarks, AreSections, IsOn, section_index};
ghost use Rattle.segment_cuts.specs.declared.mark.Mark.{Mark};

use crate::cutting::cut_up;
use crate::line::{FIRST_NUMBER, LAST_NUMBER, MIDDLE, SIDE_ONE, SIDE_TWO, line_of};
use crate::mark::{Mark, Spot};
use cim_words::{Id, Listed, NoMemory};
use std::alloc::Global;

/// The spots between two neighboring cuts of a segment, or between a cut and an end, in order from terminal 1.
pub type Section = Listed<Spot>;

/// The sections of a segment with these marks, from terminal 1 to terminal 2.
///
/// Its spots stand in order by their place, and those at one place by their identifiers. A section ends with side one
/// of a cut, and the next begins with side two. It fails only for want of memory.
pub fn sections(alloc: Global, marks: &[Mark]) -> Result<Vec<Section>, NoMemory>
    requires { AreMarks marks.now }
    ensures { IfOk result (λ sections. AreSections marks.now sections.items) }
{
    let line = line_of(alloc, marks)?;
    cut_up(alloc, &line)
}

/// The index of the section in which a spot of the segment stands.
pub fn section_of(marks: &[Mark], spot: Spot) -> usize
    requires marks { AreMarks marks.now }
    requires spot { IsOn marks.now spot }
    ensures { result ≡ section_index marks.now spot }
{
    let place = number_of(marks, spot);
    marks
        .iter()
        .filter(|mark| mark.divides && cut_number(mark) < place)
        .count()
}

/// The number of a cut.
fn cut_number(cut: &Mark) -> u64
    requires { cut.now.length.mm ≤ most_length }
    ensures { result ≡ spec.cut_number cut.now }
{
    3 * cut.length.mm + MIDDLE
}

/// The number of a spot.
fn number_of(marks: &[Mark], spot: Spot) -> u64
    requires { All (λ (m : Mark). m.length.mm ≤ most_length) marks.now }
    ensures { result ≡ spec.number marks.now spot }
{
    match spot {
        Spot::EndOne => FIRST_NUMBER,
        Spot::EndTwo => LAST_NUMBER,
        Spot::Clamp(id) => 3 * length_of(marks, id) + MIDDLE,
        Spot::CutOne(id) => 3 * length_of(marks, id) + SIDE_ONE,
        Spot::CutTwo(id) => 3 * length_of(marks, id) + SIDE_TWO,
    }
}

/// How far the mark with this identifier is from terminal 1.
fn length_of(marks: &[Mark], id: Id) -> u64
    requires { All (λ (m : Mark). m.length.mm ≤ most_length) marks.now }
    ensures length { result ≡ spec.length_of marks.now id }
    ensures within { result ≤ most_length }
{
    for mark in marks {
        if mark.id == id {
            return mark.length.mm;
        }
    }
    0
}
