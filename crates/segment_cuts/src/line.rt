//! The spots of a line segment in their order.

ghost use Rattle.std.specs.Prelude.{◌≡◌, ◌++◌, ◌≤◌, IfOk, OnOk};
ghost use Rattle.std.specs.List.{All, flat_map};
ghost use Rattle.cim_words.specs.Limits.{most_length};
ghost use Rattle.segment_cuts.specs.Sections.{AreMarks};
ghost use Rattle.segment_cuts.specs.Line.{IsLine, spots, placed_at, placed_of};
ghost use Rattle.segment_cuts.specs.declared.mark.Mark.{Mark};

use crate::mark::{Mark, Spot};
use cim_words::{Id, MOST_LENGTH, NoMemory};
use std::alloc::Global;

/// The number of terminal 1.
pub(crate) const FIRST_NUMBER: u64 = 0;

/// The number of terminal 2, which is greater than any other.
pub(crate) const LAST_NUMBER: u64 = 3 * MOST_LENGTH + 4;

/// How far the numbers of a cut's sides, of a clamp and of a cut are above three times their length.
pub(crate) const SIDE_ONE: u64 = 1;

pub(crate) const MIDDLE: u64 = 2;

pub(crate) const SIDE_TWO: u64 = 3;

/// A spot under what gives its place in the line: its number, then the identifier of its mark.
#[derive(Clone, Copy, Drop)]
pub(crate) struct Placed {
    pub(crate) number: u64,
    pub(crate) id: Id,
    pub(crate) spot: Spot,
}

impl Placed {
    /// An end of the segment.
    fn end(number: u64, spot: Spot) -> Placed
        ensures { result ≡ record { number = number; id = record { number = 0 }; spot = spot } }
    {
        Placed {
            number,
            id: Id::of(0),
            spot,
        }
    }

    /// A spot of a mark.
    fn of(mark: &Mark, offset: u64, spot: Spot) -> Placed
        requires near { offset ≤ 3 }
        requires within { mark.now.length.mm ≤ most_length }
        ensures { result ≡ placed_at mark.now offset spot }
    {
        Placed {
            number: 3 * mark.length.mm + offset,
            id: mark.id,
            spot,
        }
    }
}

/// The spots of a segment with these marks, in their order.
pub(crate) fn line_of(alloc: Global, marks: &[Mark]) -> Result<Vec<Placed>, NoMemory>
    requires { AreMarks marks.now }
    ensures { IfOk result (λ line. IsLine marks.now (spots line.items)) }
{
    let mut line = Vec::new(alloc);
    line.push(Placed::end(FIRST_NUMBER, Spot::EndOne))?;
    line.push(Placed::end(LAST_NUMBER, Spot::EndTwo))?;
    add_marks(marks, &mut line)?;
    line.sort_unstable_by_key(|placed| (placed.number, placed.id.number));
    Ok(line)
}

/// Adds the spots of some marks.
fn add_marks(marks: &[Mark], line: &mut Vec<Placed>) -> Result<(), NoMemory>
    requires { All (λ (m : Mark). m.length.mm ≤ most_length) marks.now }
    ensures { OnOk result (line.new.items ≡ line.old.items ++ flat_map placed_of marks.now) }
{
    for mark in marks {
        add_spots(mark, line)?;
    }
    Ok(())
}

/// Adds the spots of a mark.
fn add_spots(mark: &Mark, line: &mut Vec<Placed>) -> Result<(), NoMemory>
    requires { mark.now.length.mm ≤ most_length }
    ensures { OnOk result (line.new.items ≡ line.old.items ++ placed_of mark.now) }
{
    if mark.divides {
        line.push(Placed::of(mark, SIDE_ONE, Spot::CutOne(mark.id)))?;
        line.push(Placed::of(mark, SIDE_TWO, Spot::CutTwo(mark.id)))?;
    } else {
        line.push(Placed::of(mark, MIDDLE, Spot::Clamp(mark.id)))?;
    }
    Ok(())
}
