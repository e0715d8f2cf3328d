//! The least fault of a model, by a walk over its subjects for each stage of the rules.

ghost use Rattle.std.specs.Prelude.{◌≡◌, IfOk};
ghost use Rattle.cim_model.specs.Model.{about, is_subject};
ghost use Rattle.cim_profile.specs.FirstBreak.{IsFirstBreak};
ghost use Rattle.cim_profile.specs.Places.{HoldsPlaces};
ghost use Rattle.cim_profile.specs.Walk.{IsFirstIn, IsLeast, IsLesserBy, breaks_in, lesser_of};
ghost use Rattle.cim_profile.specs.declared.stage.Stage.TheVariants.{Rest};

use crate::facts::Facts;
use crate::marks::Places;
use crate::stage::{Stage, first_rule};
use crate::subject::Subject;
use cim_words::{Id, NoMemory};
use statement_set::{About, StatementSet};
use std::alloc::Global;

/// A fault of a model: a rule of the profile and a subject that breaks it.
#[derive(Clone, Copy, Debug, PartialEq, Eq)]
pub struct Break {
    /// The rule's number, from 1 to 10.
    pub rule: u8,
    /// The subject at fault.
    pub subject: Id,
}

/// The least fault of a model by rule and then by subject, none where it breaks no rule of the profile.
pub fn first_break(alloc: Global, set: &StatementSet) -> Result<Option<Break>, NoMemory>
    ensures { IfOk result (IsFirstBreak set.now) }
{
    let facts = Facts::of(alloc, set)?;
    let unknown = Places::unknown(alloc);
    if let Some(found) = least_of(alloc, &facts, &unknown, Stage::Repeats)? {
        return Ok(Some(found));
    }
    // Each cut and clamp now has one segment and one length.
    let places = Places::of(alloc, &facts)?;
    least_of(alloc, &facts, &places, Stage::Rest)
}

/// The least fault by the rules of a stage, none where no subject breaks one of them.
fn least_of(
    alloc: Global,
    facts: &Facts<'_>,
    places: &Places,
    stage: Stage,
) -> Result<Option<Break>, NoMemory>
    requires { stage ≡ Rest → HoldsPlaces facts.now.statements.now places.now }
    ensures { IfOk result (IsLeast (breaks_in stage facts.now.statements.now) (is_subject facts.now.statements.now)) }
{
    let mut least = None;
    for (id, about) in facts.subjects() {
        least = least_with(alloc, facts, places, stage, least, id, about)?;
    }
    Ok(least)
}

/// The fault so far, or that of a later subject with these statements if it breaks an earlier rule.
fn least_with(
    alloc: Global,
    facts: &Facts<'_>,
    places: &Places,
    stage: Stage,
    least: Option<Break>,
    id: Id,
    statements: About<'_>,
) -> Result<Option<Break>, NoMemory>
    requires statements { statements ≡ about facts.now.statements.now id.number }
    requires places { stage ≡ Rest → HoldsPlaces facts.now.statements.now places.now }
    ensures { IfOk result (IsLesserBy (IsFirstIn stage facts.now.statements.now id.number) least id) }
{
    let subject = Subject {
        id,
        statements,
        types: facts.types_of(id),
    };
    Ok(lesser(
        least,
        first_rule(alloc, facts, places, stage, &subject)?,
        id,
    ))
}

/// The fault so far, or that of a later subject if it breaks an earlier rule.
fn lesser(least: Option<Break>, rule: Option<u8>, subject: Id) -> Option<Break>
    ensures { result ≡ lesser_of least rule subject }
{
    match (least, rule) {
        (None, Some(rule)) => Some(Break { rule, subject }),
        (Some(found), Some(rule)) if rule < found.rule => Some(Break { rule, subject }),
        (found, _) => found,
    }
}
