//! Sections of a few segments.

ghost use Rattle.std.specs.Prelude.{◌≡◌, ◌≤◌, length, true, false};
ghost use Rattle.std.specs.Bool.{OnTrue};
ghost use Rattle.std.specs.List.{All, AllPairs};
ghost use Rattle.cim_words.specs.Limits.{most_length};
ghost use Rattle.segment_cuts.specs.Sections.{AreMarks, IsOn, HasMark};
ghost use Rattle.segment_cuts.specs.declared.mark.Mark.{Mark};

use cim_words::{Id, Length, MOST_MARKS};
use segment_cuts::{Mark, NoMemory, Section, Spot, section_of, sections};
use std::alloc::Global;
use std::test::Fail;

const FARTHEST: u64 = 1_000_000_000_000;

/// A mark: the number of its identifier, its length, and whether it is a cut.
type Row = (u8, u64, bool);

const ID_1: Id = Id { number: 1 };

const ID_2: Id = Id { number: 2 };

const ID_3: Id = Id { number: 3 };

const ID_4: Id = Id { number: 4 };

const ID_9: Id = Id { number: 9 };

/// The marks of segments, and the spots of their sections, each behind the number of its section.
const SEGMENTS: &[(&[Row], &[(usize, Spot)])] = &[
    (&[], &[(0, Spot::EndOne), (0, Spot::EndTwo)]),
    (
        &[(1, 0, false), (2, 500, true)],
        &[
            (0, Spot::EndOne),
            (0, Spot::Clamp(ID_1)),
            (0, Spot::CutOne(ID_2)),
            (1, Spot::CutTwo(ID_2)),
            (1, Spot::EndTwo),
        ],
    ),
    (
        &[(2, FARTHEST, true), (1, 0, true)],
        &[
            (0, Spot::EndOne),
            (0, Spot::CutOne(ID_1)),
            (1, Spot::CutTwo(ID_1)),
            (1, Spot::CutOne(ID_2)),
            (2, Spot::CutTwo(ID_2)),
            (2, Spot::EndTwo),
        ],
    ),
    (
        &[(3, 7, false), (9, 6, false), (1, 7, false), (4, 8, true)],
        &[
            (0, Spot::EndOne),
            (0, Spot::Clamp(ID_9)),
            (0, Spot::Clamp(ID_1)),
            (0, Spot::Clamp(ID_3)),
            (0, Spot::CutOne(ID_4)),
            (1, Spot::CutTwo(ID_4)),
            (1, Spot::EndTwo),
        ],
    ),
];

fn mark((number, mm, divides): Row) -> Mark {
    Mark {
        id: Id::of(number as u128),
        length: Length { mm },
        divides,
    }
}

fn marks_of(alloc: Global, rows: &[Row]) -> Result<Vec<Mark>, NoMemory> {
    let mut marks = Vec::new(alloc);
    for row in rows {
        marks.push(mark(*row))?;
    }
    Ok(marks)
}

/// Whether these are marks of a segment.
fn are_marks(marks: &[Mark]) -> bool
    ensures { OnTrue result (AreMarks marks.now) }
{
    marks.len() <= MOST_MARKS && are_near(marks) && are_apart(marks)
}

fn are_near(marks: &[Mark]) -> bool
    ensures { OnTrue result (All (λ (m : Mark). m.length.mm ≤ most_length) marks.now) }
{
    marks.iter().all(|mark| mark.length.mm <= FARTHEST)
}

fn are_apart(marks: &[Mark]) -> bool
    ensures different { OnTrue result (AllPairs (λ (m n : Mark). ¬ (m.id ≡ n.id)) marks.now) }
    ensures apart { OnTrue result (AllPairs (λ (m n : Mark). m.length ≡ n.length → (m.divides ≡ false) × (n.divides ≡ false)) marks.now) }
{
    for (index, mark) in marks.iter().enumerate() {
        if !goes_with_all(mark, &marks[index + 1..]) {
            return false;
        }
    }
    true
}

fn goes_with_all(mark: &Mark, others: &[Mark]) -> bool
    ensures different { OnTrue result (All (λ (n : Mark). ¬ (mark.now.id ≡ n.id)) others.now) }
    ensures apart { OnTrue result (All (λ (n : Mark). mark.now.length ≡ n.length → (mark.now.divides ≡ false) × (n.divides ≡ false)) others.now) }
{
    for other in others {
        if mark.id == other.id || mark.length == other.length && (mark.divides || other.divides) {
            return false;
        }
    }
    true
}

/// Whether a spot is on the segment of these marks.
fn is_on(marks: &[Mark], spot: Spot) -> bool
    ensures { OnTrue result (IsOn marks.now spot) }
{
    match spot {
        Spot::EndOne | Spot::EndTwo => true,
        Spot::Clamp(id) => has_mark(marks, id, false),
        Spot::CutOne(id) | Spot::CutTwo(id) => has_mark(marks, id, true),
    }
}

fn has_mark(marks: &[Mark], id: Id, divides: bool) -> bool
    ensures { OnTrue result (HasMark marks.now id divides) }
{
    for mark in marks {
        if mark.id == id && mark.divides == divides {
            return true;
        }
    }
    false
}

/// The spots of all sections, each behind the number of its section.
fn indexed(alloc: Global, sections: &[Section]) -> Result<Vec<(usize, Spot)>, NoMemory> {
    let mut spots = Vec::new(alloc);
    for (index, section) in sections.iter().enumerate() {
        for spot in section.as_slice() {
            spots.push((index, *spot))?;
        }
    }
    Ok(spots)
}

/// Whether each spot is in its section.
fn are_found(marks: &[Mark], spots: &[(usize, Spot)]) -> bool
    requires { AreMarks marks.now }
{
    for (index, spot) in spots {
        if !is_on(marks, *spot) || section_of(marks, *spot) != *index {
            return false;
        }
    }
    true
}

/// Whether a segment with these marks has these sections.
fn is_cut(alloc: Global, rows: &[Row], spots: &[(usize, Spot)]) -> Result<bool, NoMemory> {
    let marks = marks_of(alloc, rows)?;
    if !are_marks(&marks) {
        return Ok(false);
    }
    let made = sections(alloc, &marks)?;
    Ok(indexed(alloc, &made)?.as_slice() == spots && are_found(&marks, spots))
}

#[test]
fn cuts_segments(rt: HostRuntime) -> Result<(), Fail> {
    for (rows, spots) in SEGMENTS {
        assert!(rt; is_cut(rt.alloc(), rows, spots)?);
    }
    Ok(())
}

/// A cut at every second millimetre, and clamps between.
fn many_marks(alloc: Global) -> Result<Vec<Mark>, NoMemory> {
    let mut marks = Vec::new(alloc);
    for number in 0..=u8::MAX {
        marks.push(mark((number, number as u64, number % 2 == 0)))?;
    }
    Ok(marks)
}

#[test]
fn cuts_at_most_marks(rt: HostRuntime) -> Result<(), Fail> {
    let marks = many_marks(rt.alloc())?;
    assert!(rt; are_marks(&marks));
    assert!(rt; sections(rt.alloc(), &marks)?.len() == 129);
    assert!(rt; section_of(&marks, Spot::EndTwo) == 128);
    Ok(())
}
