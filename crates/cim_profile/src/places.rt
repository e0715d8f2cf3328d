//! The rule of the profile on where a cut or a clamp lies along its segment.

ghost use Rattle.std.specs.Prelude.{◌≡◌, List, map, nat_lt, IfOk};
ghost use Rattle.std.specs.List.{list_any};
ghost use Rattle.cim_words.specs.declared.statement.Statement.{Statement};
ghost use Rattle.cim_model.specs.Values.{mm_of};
ghost use Rattle.cim_profile.specs.Facts.{is_present_and};
ghost use Rattle.cim_model.specs.Model as model;
ghost use Rattle.cim_profile.specs.MarkKind.{segment_of};
ghost use Rattle.cim_profile.specs.Places.{HoldsPlaces, is_misplaced, lies_wrongly};
ghost use Rattle.cim_model.specs.Profile as spec;
ghost use Rattle.cim_profile.specs.Subject.{IsSubjectOf};

use crate::facts::Facts;
use crate::mark_kind::MarkKind;
use crate::marks::Places;
use crate::subject::Subject;
use cim_model::named_by;
use cim_words::{Id, Length, NoMemory, Statement};
use std::alloc::Global;

/// A cut or a clamp lies within its segment's stated length, and a cut shares its length with no other cut or clamp of its segment.
pub(crate) fn breaks_place(
    alloc: Global,
    facts: &Facts<'_>,
    places: &Places,
    subject: &Subject<'_>,
) -> Result<bool, NoMemory>
    requires subject { IsSubjectOf facts.now.statements.now subject.now }
    requires places { HoldsPlaces facts.now.statements.now places.now }
    ensures { IfOk result (λ broken. broken ≡ spec.breaks_place facts.now.statements.now subject.now.id.number) }
{
    Ok(
        is_misplaced(alloc, facts, places, MarkKind::Clamp, subject)?
            || is_misplaced(alloc, facts, places, MarkKind::Cut, subject)?,
    )
}

/// Whether a subject is a mark of a kind and lies wrongly along a segment that it names.
fn is_misplaced(
    alloc: Global,
    facts: &Facts<'_>,
    places: &Places,
    kind: MarkKind,
    subject: &Subject<'_>,
) -> Result<bool, NoMemory>
    requires subject { IsSubjectOf facts.now.statements.now subject.now }
    requires places { HoldsPlaces facts.now.statements.now places.now }
    ensures { IfOk result (λ wrong. wrong ≡ is_misplaced facts.now.statements.now kind subject.now.id.number) }
{
    if !subject.is_of(kind.class()) {
        return Ok(false);
    }
    let lengths = facts.mark_lengths(alloc, kind, subject.id)?;
    for statement in subject.statements.again() {
        if is_wrong(alloc, facts, places, kind, subject.id, statement, &lengths)? {
            return Ok(true);
        }
    }
    Ok(false)
}

/// Whether a mark with these lengths lies beyond the segment that one of its statements names, or, if it is a cut, shares a place there.
fn is_wrong(
    alloc: Global,
    facts: &Facts<'_>,
    places: &Places,
    kind: MarkKind,
    mark: Id,
    statement: &Statement,
    lengths: &[Length],
) -> Result<bool, NoMemory>
    requires { HoldsPlaces facts.now.statements.now places.now }
    ensures { IfOk result (λ wrong. wrong ≡ is_present_and (lies_wrongly facts.now.statements.now kind mark.number (map mm_of lengths.now)) (model.named_by (segment_of kind) statement.now)) }
{
    let Some(segment) = named_by(kind.segment(), statement) else {
        return Ok(false);
    };
    if is_beyond(lengths, &facts.stated_lengths(alloc, segment)?) {
        return Ok(true);
    }
    match kind {
        MarkKind::Cut => Ok(shares_place(places, mark, segment, lengths)),
        MarkKind::Clamp => Ok(false),
    }
}

/// Whether a cut with these lengths shares one with another cut or clamp of a segment.
fn shares_place(places: &Places, cut: Id, segment: Id, lengths: &[Length]) -> bool
    ensures { (m : List Statement) → HoldsPlaces m places.now → result ≡ spec.shares_place m cut.number (map mm_of lengths.now) segment.number }
{
    lengths
        .iter()
        .any(|length| places.is_shared(segment, *length, cut))
}

/// Whether one of these lengths is above one of those.
fn is_beyond(lengths: &[Length], limits: &[Length]) -> bool
    ensures { result ≡ spec.is_beyond (map mm_of lengths.now) (map mm_of limits.now) }
{
    lengths.iter().any(|length| is_above_one(*length, limits))
}

fn is_above_one(length: Length, limits: &[Length]) -> bool
    ensures { result ≡ list_any (λ limit. nat_lt limit length.mm) (map mm_of limits.now) }
{
    limits.iter().any(|limit| length.mm > limit.mm)
}
