//! The rules of the profile that speak of a subject's own statements, and of the classes of what they name.

ghost use Rattle.std.specs.Prelude.{◌≡◌, List, IfOk, not};
ghost use Rattle.std.specs.List.{list_any};
ghost use Rattle.cim_words.specs.declared.object.Object.{Object};
ghost use Rattle.cim_words.specs.declared.statement.Statement.{Statement};
ghost use Rattle.cim_model.specs.Model.{said_in};
ghost use Rattle.cim_model.specs.Profile as spec;
ghost use Rattle.cim_profile.specs.Subject.{IsSubjectOf};

use crate::attributes::{ATTRIBUTES, REFERENCES, VALUES};
use crate::facts::Facts;
use crate::forms::has_form;
use crate::kind::Kind;
use crate::said::{count, has_one_name, is_silent};
use crate::subject::Subject;
use cim_model::is_by;
use cim_words::{KnownProp, NoMemory, Object};
use statement_set::About;
use std::alloc::Global;

/// What has a class of the table, or is named by a terminal as its equipment, has one type statement, and that names a class.
pub(crate) fn breaks_type(
    alloc: Global,
    facts: &Facts<'_>,
    subject: &Subject<'_>,
) -> Result<bool, NoMemory>
    requires { IsSubjectOf facts.now.statements.now subject.now }
    ensures { IfOk result (λ broken. broken ≡ spec.breaks_type facts.now.statements.now subject.now.id.number) }
{
    if has_one_name(&subject.statements) {
        return Ok(false);
    }
    Ok(subject.is_of(Kind::Known) || !facts.terminals_of(alloc, subject.id)?.is_empty())
}

/// A property that counts on a subject is stated at most once.
pub(crate) fn breaks_once(subject: &Subject<'_>) -> bool
    ensures { (m : List Statement) → IsSubjectOf m subject.now → result ≡ spec.breaks_once m subject.now.id.number }
{
    ATTRIBUTES.iter().any(|known| states_twice(subject, *known))
}

fn states_twice(subject: &Subject<'_>, known: KnownProp) -> bool
    ensures { (m : List Statement) → IsSubjectOf m subject.now → result ≡ spec.states_twice m subject.now.id.number known }
{
    count(&subject.statements, known) > 1 && subject.is_of(Kind::Carrying(known))
}

/// A terminal names its equipment, a clamp and a cut their segment.
pub(crate) fn breaks_owner(subject: &Subject<'_>) -> bool
    ensures { (m : List Statement) → IsSubjectOf m subject.now → result ≡ spec.breaks_owner m subject.now.id.number }
{
    subject.is_of(Kind::Terminal) && is_silent(&subject.statements, KnownProp::CONDUCTING_EQUIPMENT)
        || subject.is_of(Kind::Clamp) && is_silent(&subject.statements, KnownProp::CLAMP_SEGMENT)
        || subject.is_of(Kind::Cut) && is_silent(&subject.statements, KnownProp::CUT_SEGMENT)
}

/// What a reference names is of the right class.
pub(crate) fn breaks_target(facts: &Facts<'_>, subject: &Subject<'_>) -> bool
    requires { IsSubjectOf facts.now.statements.now subject.now }
    ensures { result ≡ spec.breaks_target facts.now.statements.now subject.now.id.number }
{
    REFERENCES
        .iter()
        .any(|known| names_wrongly(facts, subject, *known))
}

fn names_wrongly(facts: &Facts<'_>, subject: &Subject<'_>, known: KnownProp) -> bool
    requires { IsSubjectOf facts.now.statements.now subject.now }
    ensures { result ≡ spec.names_wrongly facts.now.statements.now subject.now.id.number known }
{
    says_no_target(facts, &subject.statements, known) && subject.is_of(Kind::Carrying(known))
}

fn says_no_target(facts: &Facts<'_>, statements: &About<'_>, known: KnownProp) -> bool
    ensures { result ≡ list_any (λ o. not (spec.names_target facts.now.statements.now known o)) (said_in statements.now known) }
{
    statements.again().any(|statement| is_by(known, statement)
        && !names_target(facts, known, &statement.object))
}

fn names_target(facts: &Facts<'_>, known: KnownProp, object: &Object) -> bool
    ensures { result ≡ spec.names_target facts.now.statements.now known object.now }
{
    let Object::Id(id) = object else {
        return false;
    };
    match known {
        KnownProp::K2 | KnownProp::K15 | KnownProp::K17 => facts.is_thing(*id),
        KnownProp::K3 => facts.is_of(Kind::Node, *id),
        _ => facts.is_of(Kind::Segment, *id),
    }
}

/// A value is of the form that its property asks for.
pub(crate) fn breaks_form(subject: &Subject<'_>) -> bool
    ensures { (m : List Statement) → IsSubjectOf m subject.now → result ≡ spec.breaks_form m subject.now.id.number }
{
    VALUES.iter().any(|known| states_wrongly(subject, *known))
}

fn states_wrongly(subject: &Subject<'_>, known: KnownProp) -> bool
    ensures { (m : List Statement) → IsSubjectOf m subject.now → result ≡ spec.states_wrongly m subject.now.id.number known }
{
    says_wrongly(&subject.statements, known) && subject.is_of(Kind::Carrying(known))
}

fn says_wrongly(statements: &About<'_>, known: KnownProp) -> bool
    ensures { result ≡ list_any (λ o. not (spec.has_form known o)) (said_in statements.now known) }
{
    statements.again().any(|statement| is_by(known, statement)
        && !has_form(known, &statement.object))
}

/// The two sides of a switch's phase are one phase.
pub(crate) fn breaks_sides(subject: &Subject<'_>) -> bool
    ensures { (m : List Statement) → IsSubjectOf m subject.now → result ≡ spec.breaks_sides m subject.now.id.number }
{
    subject.is_of(Kind::SwitchPhase)
        && subject.statements.again().any(|statement| is_by(KnownProp::PHASE_SIDE_1, statement)
            && has_other_side(subject, &statement.object))
}

fn has_other_side(subject: &Subject<'_>, side: &Object) -> bool
    ensures { (m : List Statement) → IsSubjectOf m subject.now → result ≡ spec.has_other_side m subject.now.id.number side.now }
{
    subject.statements.again().any(|statement| is_by(KnownProp::PHASE_SIDE_2, statement)
        && !is_same(side, &statement.object))
}

fn is_same(one: &Object, other: &Object) -> bool
    ensures { result ≡ spec.same_object one.now other.now }
{
    ties_are_equal();
    one == other
}

/// Objects are equal where their order ties them.
fn ties_are_equal()
    ensures { (one other : Object) → ⟦<Object as PartialEq>⟧.eq one other ≡ spec.same_object one other }
{}
