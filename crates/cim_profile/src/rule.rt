//! The list of the rules of the profile: their order, their numbers, and the function that decides each.

ghost use Rattle.std.specs.Prelude.{◌≡◌, IfOk};
ghost use Rattle.cim_model.specs.Profile.{breaks};
ghost use Rattle.cim_profile.specs.Places.{HoldsPlaces};
ghost use Rattle.cim_profile.specs.Rule.{number};
ghost use Rattle.cim_profile.specs.Subject.{IsSubjectOf};
ghost use Rattle.cim_profile.specs.declared.rule.Rule.TheVariants.{Place};

use crate::crowds::{breaks_crowd, breaks_numbers, breaks_terminals};
use crate::facts::Facts;
use crate::marks::Places;
use crate::places::breaks_place;
use crate::rules::{
    breaks_form, breaks_once, breaks_owner, breaks_sides, breaks_target, breaks_type,
};
use crate::subject::Subject;
use cim_words::NoMemory;
use std::alloc::Global;

/// A rule of the profile. Its number is its place here, counted from 1.
#[derive(Clone, Copy)]
pub(crate) enum Rule {
    /// What has a class of the table, or is named by a terminal as its equipment, has one type statement, and that names a class.
    OneType = 1,
    /// A property that counts on a subject is stated at most once.
    Once,
    /// A terminal names its equipment, a clamp and a cut their segment.
    Owner,
    /// What a reference names is of the right class: a terminal's or phase object's equipment has a type and is no terminal, node or phase object, a terminal's node is a node, and what a cut, a clamp or a segment's phase stands on is a segment.
    Target,
    /// A segment or switch has two terminals, what is single has one, and other equipment has at most 64.
    Terminals,
    /// The two terminals of a segment or a cut are numbered 1 and 2. Those of a segment without cuts and clamps may both have no number.
    Numbers,
    /// A value is of the form that its property asks for.
    Form,
    /// A cut or a clamp lies within its segment's stated length, and a cut shares its length with no other cut or clamp of its segment.
    Place,
    /// A segment has at most 256 cuts and clamps, and a node at most 1,024 terminals.
    Crowd,
    /// The two sides of a switch's phase are one phase.
    Sides,
}

/// Every rule, in the order in which a subject is asked for them.
pub(crate) const RULES: [Rule; 10] = [
    Rule::OneType,
    Rule::Once,
    Rule::Owner,
    Rule::Target,
    Rule::Terminals,
    Rule::Numbers,
    Rule::Form,
    Rule::Place,
    Rule::Crowd,
    Rule::Sides,
];

impl Rule {
    /// The number by which a refusal names the rule.
    #[inline]
    pub(crate) fn number(self) -> u8
        ensures { result ≡ number self }
    {
        self as u8
    }

    /// Whether a subject breaks the rule.
    #[inline]
    pub(crate) fn is_broken(
        self,
        alloc: Global,
        facts: &Facts<'_>,
        places: &Places,
        subject: &Subject<'_>,
    ) -> Result<bool, NoMemory>
        requires subject { IsSubjectOf facts.now.statements.now subject.now }
        requires places { self ≡ Place → HoldsPlaces facts.now.statements.now places.now }
        ensures { IfOk result (λ broken. broken ≡ breaks facts.now.statements.now (number self) subject.now.id.number) }
    {
        match self {
            Rule::OneType => breaks_type(alloc, facts, subject),
            Rule::Once => Ok(breaks_once(subject)),
            Rule::Owner => Ok(breaks_owner(subject)),
            Rule::Target => Ok(breaks_target(facts, subject)),
            Rule::Terminals => breaks_terminals(alloc, facts, subject),
            Rule::Numbers => breaks_numbers(alloc, facts, subject),
            Rule::Form => Ok(breaks_form(subject)),
            Rule::Place => breaks_place(alloc, facts, places, subject),
            Rule::Crowd => breaks_crowd(alloc, facts, subject),
            Rule::Sides => Ok(breaks_sides(subject)),
        }
    }
}
