//! The properties that the rules of the profile go through.

ghost use Rattle.std.specs.Prelude.{◌≡◌};
ghost use Rattle.cim_model.specs.Profile.{attributes, references, values};

use cim_words::KnownProp;

/// All but the type.
pub(crate) const ATTRIBUTES: [KnownProp; 19] = [
    KnownProp::CONDUCTING_EQUIPMENT,
    KnownProp::CONNECTIVITY_NODE,
    KnownProp::PHASES,
    KnownProp::SEQUENCE_NUMBER,
    KnownProp::NORMAL_OPEN,
    KnownProp::SWITCH_OPEN,
    KnownProp::CONDUCTOR_LENGTH,
    KnownProp::CLAMP_SEGMENT,
    KnownProp::CLAMP_LENGTH,
    KnownProp::CUT_SEGMENT,
    KnownProp::CUT_LENGTH,
    KnownProp::SEGMENT_OF_PHASE,
    KnownProp::SEGMENT_PHASE,
    KnownProp::CONSUMER_OF_PHASE,
    KnownProp::CONSUMER_PHASE,
    KnownProp::SWITCH_OF_PHASE,
    KnownProp::SWITCH_PHASE_CLOSED,
    KnownProp::PHASE_SIDE_1,
    KnownProp::PHASE_SIDE_2,
];

/// Those that name another subject.
pub(crate) const REFERENCES: [KnownProp; 7] = [
    KnownProp::CONDUCTING_EQUIPMENT,
    KnownProp::CONNECTIVITY_NODE,
    KnownProp::CLAMP_SEGMENT,
    KnownProp::CUT_SEGMENT,
    KnownProp::SEGMENT_OF_PHASE,
    KnownProp::CONSUMER_OF_PHASE,
    KnownProp::SWITCH_OF_PHASE,
];

/// Those that state a value.
pub(crate) const VALUES: [KnownProp; 12] = [
    KnownProp::PHASES,
    KnownProp::SEQUENCE_NUMBER,
    KnownProp::NORMAL_OPEN,
    KnownProp::SWITCH_OPEN,
    KnownProp::CONDUCTOR_LENGTH,
    KnownProp::CLAMP_LENGTH,
    KnownProp::CUT_LENGTH,
    KnownProp::SEGMENT_PHASE,
    KnownProp::CONSUMER_PHASE,
    KnownProp::SWITCH_PHASE_CLOSED,
    KnownProp::PHASE_SIDE_1,
    KnownProp::PHASE_SIDE_2,
];

/// The rules go through just these properties.
pub(crate) fn properties_are_of_the_profile()
    ensures attributes { ATTRIBUTES ≡ attributes }
    ensures references { REFERENCES ≡ references }
    ensures values { VALUES ≡ values }
{}
