//! The two stages in which the rules are asked, and the first rule of a stage that a subject breaks.

ghost use Rattle.std.specs.Prelude.{◌≡◌, IfOk, map};
ghost use Rattle.cim_profile.specs.Places.{HoldsPlaces};
ghost use Rattle.cim_profile.specs.Rule.{number};
ghost use Rattle.cim_profile.specs.Subject.{IsSubjectOf};
ghost use Rattle.cim_profile.specs.Walk.{IsFirstIn, numbers_of};
ghost use Rattle.cim_profile.specs.declared.stage.Stage.TheVariants.{Rest};

use crate::facts::Facts;
use crate::marks::Places;
use crate::rule::{RULES, Rule};
use crate::subject::Subject;
use cim_words::NoMemory;
use std::alloc::Global;

/// The rules that one walk over the subjects looks at.
///
/// The rules of the first stage bound what a subject of the model's classes repeats, so the later rules are cheap where none of these is broken.
#[derive(Clone, Copy, Drop)]
pub(crate) enum Stage {
    /// The first rules, on what is stated more than once.
    Repeats,
    /// The rules after them.
    Rest,
}

/// How many rules the first stage has.
pub(crate) const ON_REPEATS: usize = 2;

impl Stage {
    /// The rules of the stage, in their order.
    #[inline]
    fn rules(self) -> &'static [Rule]
        ensures { map number result.now ≡ numbers_of self }
    {
        match self {
            Stage::Repeats => &RULES[..ON_REPEATS],
            Stage::Rest => &RULES[ON_REPEATS..],
        }
    }
}

/// The first rule of a stage that a subject breaks, by number.
pub(crate) fn first_rule(
    alloc: Global,
    facts: &Facts<'_>,
    places: &Places,
    stage: Stage,
    subject: &Subject<'_>,
) -> Result<Option<u8>, NoMemory>
    requires subject { IsSubjectOf facts.now.statements.now subject.now }
    requires places { stage ≡ Rest → HoldsPlaces facts.now.statements.now places.now }
    ensures { IfOk result (IsFirstIn stage facts.now.statements.now subject.now.id.number) }
{
    for rule in stage.rules() {
        if rule.is_broken(alloc, facts, places, subject)? {
            return Ok(Some(rule.number()));
        }
    }
    Ok(None)
}
