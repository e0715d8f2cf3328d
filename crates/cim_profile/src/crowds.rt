//! The rules of the profile on how many terminals and marks there are, and on the numbers of two terminals.

ghost use Rattle.std.specs.Prelude.{◌≡◌, [], ◌∷◌, IfOk};
ghost use Rattle.cim_model.specs.Profile as spec;
ghost use Rattle.cim_profile.specs.Subject.{IsSubjectOf};

use crate::facts::Facts;
use crate::kind::Kind;
use crate::mark_kind::MarkKind;
use crate::subject::Subject;
use cim_words::{Id, MOST_AT_PLACE, MOST_MARKS, MOST_TERMINALS, NoMemory};
use std::alloc::Global;

/// A segment or switch has two terminals, what is single has one, and other equipment has at most 64.
pub(crate) fn breaks_terminals(
    alloc: Global,
    facts: &Facts<'_>,
    subject: &Subject<'_>,
) -> Result<bool, NoMemory>
    requires { IsSubjectOf facts.now.statements.now subject.now }
    ensures { IfOk result (λ broken. broken ≡ spec.breaks_terminals facts.now.statements.now subject.now.id.number) }
{
    let terminals = facts.terminals_of(alloc, subject.id)?.len();
    let two_ended = subject.is_of(Kind::TwoEnded);
    let single = subject.is_of(Kind::Single);
    Ok(
        two_ended && terminals != 2
            || single && terminals != 1
            || !(two_ended || single) && terminals > MOST_TERMINALS,
    )
}

/// The two terminals of a segment or a cut are numbered 1 and 2. Those of a segment without cuts and clamps may both have no number.
pub(crate) fn breaks_numbers(
    alloc: Global,
    facts: &Facts<'_>,
    subject: &Subject<'_>,
) -> Result<bool, NoMemory>
    requires { IsSubjectOf facts.now.statements.now subject.now }
    ensures { IfOk result (λ broken. broken ≡ spec.breaks_numbers facts.now.statements.now subject.now.id.number) }
{
    if !(subject.is_of(Kind::Segment) || subject.is_of(Kind::Cut)) {
        return Ok(false);
    }
    match facts.terminals_of(alloc, subject.id)?.as_slice() {
        [first, second] => are_misnumbered(alloc, facts, subject, *first, *second),
        _ => Ok(false),
    }
}

fn are_misnumbered(
    alloc: Global,
    facts: &Facts<'_>,
    subject: &Subject<'_>,
    first: Id,
    second: Id,
) -> Result<bool, NoMemory>
    requires { IsSubjectOf facts.now.statements.now subject.now }
    ensures { IfOk result (λ wrong. wrong ≡ spec.are_misnumbered facts.now.statements.now subject.now.id.number (first.number ∷ second.number ∷ [])) }
{
    let these = facts.numbers_of(alloc, first)?;
    let those = facts.numbers_of(alloc, second)?;
    if are_one_and_two(&these, &those) {
        return Ok(false);
    }
    if !(these.is_empty() && those.is_empty() && subject.is_of(Kind::Segment)) {
        return Ok(true);
    }
    let no_cuts = facts.marks_of(alloc, MarkKind::Cut, subject.id)?.is_empty();
    let no_clamps = facts
        .marks_of(alloc, MarkKind::Clamp, subject.id)?
        .is_empty();
    Ok(!(no_cuts && no_clamps))
}

fn are_one_and_two(these: &[u32], those: &[u32]) -> bool
    ensures { result ≡ spec.are_one_and_two these.now those.now }
{
    is_one(1, these) && is_one(2, those) || is_one(2, these) && is_one(1, those)
}

fn is_one(number: u32, numbers: &[u32]) -> bool
    ensures { result ≡ spec.is_one number numbers.now }
{
    match numbers {
        [first] => *first == number,
        _ => false,
    }
}

/// A segment has at most 256 cuts and clamps, and a node at most 1,024 terminals.
pub(crate) fn breaks_crowd(
    alloc: Global,
    facts: &Facts<'_>,
    subject: &Subject<'_>,
) -> Result<bool, NoMemory>
    requires { IsSubjectOf facts.now.statements.now subject.now }
    ensures { IfOk result (λ broken. broken ≡ spec.breaks_crowd facts.now.statements.now subject.now.id.number) }
{
    Ok(has_many_marks(alloc, facts, subject)? || has_many_terminals(alloc, facts, subject)?)
}

fn has_many_marks(alloc: Global, facts: &Facts<'_>, subject: &Subject<'_>) -> Result<bool, NoMemory>
    requires { IsSubjectOf facts.now.statements.now subject.now }
    ensures { IfOk result (λ many. many ≡ spec.has_many_marks facts.now.statements.now subject.now.id.number) }
{
    if !subject.is_of(Kind::Segment) {
        return Ok(false);
    }
    let cuts = facts.marks_of(alloc, MarkKind::Cut, subject.id)?.len();
    let clamps = facts.marks_of(alloc, MarkKind::Clamp, subject.id)?.len();
    Ok(cuts > MOST_MARKS || cuts + clamps > MOST_MARKS)
}

fn has_many_terminals(
    alloc: Global,
    facts: &Facts<'_>,
    subject: &Subject<'_>,
) -> Result<bool, NoMemory>
    requires { IsSubjectOf facts.now.statements.now subject.now }
    ensures { IfOk result (λ many. many ≡ spec.has_many_terminals facts.now.statements.now subject.now.id.number) }
{
    if !subject.is_of(Kind::Node) {
        return Ok(false);
    }
    Ok(facts.terminals_at(alloc, subject.id)?.len() > MOST_AT_PLACE)
}
