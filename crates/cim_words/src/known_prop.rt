//! The properties that have a meaning here, in the order of this project's profile.

ghost use Rattle.std.specs.Prelude.{◌≡◌, Some};
ghost use Rattle.cim_words.specs.KnownProp.{known_iri, known_prop};
ghost use Rattle.cim_words.specs.declared.known_prop.KnownProp.{KnownProp};

use crate::table::{Named, with_iri};

/// A property that has a meaning here (RDF 1.1 for the type, IEC 61970-301 for the rest).
#[derive(Clone, Copy, Debug, PartialEq, Eq, PartialOrd, Ord, Hash)]
pub enum KnownProp {
    /// The class of the subject.
    K1,
    /// The equipment that a terminal belongs to.
    K2,
    /// The node at which a terminal stands.
    K3,
    /// The phases of a terminal.
    K4,
    /// Which terminal of its equipment a terminal is, from 1.
    K5,
    /// Whether a switch is normally open.
    K6,
    /// Whether a switch is open.
    K7,
    /// The length of a segment, in metres.
    K8,
    /// The segment on which a clamp sits.
    K9,
    /// How far a clamp is from its segment's terminal 1, in metres.
    K10,
    /// The segment that a cut separates.
    K11,
    /// How far a cut is from its segment's terminal 1, in metres.
    K12,
    /// The segment of which this is a phase.
    K13,
    /// Which phase of a segment this is.
    K14,
    /// The load of which this is a phase.
    K15,
    /// Which phase of a load this is.
    K16,
    /// The switch of which this is a phase.
    K17,
    /// Whether this phase of a switch is closed.
    K18,
    /// The phase at a switch's terminal 1.
    K19,
    /// The phase at a switch's terminal 2.
    K20,
}

/// The properties by words of the standard, one for each row of the table.
impl KnownProp {
    /// The class of a subject, `rdf:type`.
    pub const RDF_TYPE: KnownProp = KnownProp::K1;
    /// `Terminal.ConductingEquipment`.
    pub const CONDUCTING_EQUIPMENT: KnownProp = KnownProp::K2;
    /// `Terminal.ConnectivityNode`.
    pub const CONNECTIVITY_NODE: KnownProp = KnownProp::K3;
    /// `Terminal.phases`.
    pub const PHASES: KnownProp = KnownProp::K4;
    /// `ACDCTerminal.sequenceNumber`.
    pub const SEQUENCE_NUMBER: KnownProp = KnownProp::K5;
    /// `Switch.normalOpen`.
    pub const NORMAL_OPEN: KnownProp = KnownProp::K6;
    /// `Switch.open`.
    pub const SWITCH_OPEN: KnownProp = KnownProp::K7;
    /// `Conductor.length`.
    pub const CONDUCTOR_LENGTH: KnownProp = KnownProp::K8;
    /// `Clamp.ACLineSegment`.
    pub const CLAMP_SEGMENT: KnownProp = KnownProp::K9;
    /// `Clamp.lengthFromTerminal1`.
    pub const CLAMP_LENGTH: KnownProp = KnownProp::K10;
    /// `Cut.ACLineSegment`.
    pub const CUT_SEGMENT: KnownProp = KnownProp::K11;
    /// `Cut.lengthFromTerminal1`.
    pub const CUT_LENGTH: KnownProp = KnownProp::K12;
    /// `ACLineSegmentPhase.ACLineSegment`.
    pub const SEGMENT_OF_PHASE: KnownProp = KnownProp::K13;
    /// `ACLineSegmentPhase.phase`.
    pub const SEGMENT_PHASE: KnownProp = KnownProp::K14;
    /// `EnergyConsumerPhase.EnergyConsumer`.
    pub const CONSUMER_OF_PHASE: KnownProp = KnownProp::K15;
    /// `EnergyConsumerPhase.phase`.
    pub const CONSUMER_PHASE: KnownProp = KnownProp::K16;
    /// `SwitchPhase.Switch`.
    pub const SWITCH_OF_PHASE: KnownProp = KnownProp::K17;
    /// `SwitchPhase.closed`.
    pub const SWITCH_PHASE_CLOSED: KnownProp = KnownProp::K18;
    /// `SwitchPhase.phaseSide1`.
    pub const PHASE_SIDE_1: KnownProp = KnownProp::K19;
    /// `SwitchPhase.phaseSide2`.
    pub const PHASE_SIDE_2: KnownProp = KnownProp::K20;
}

/// Every known property.
pub const KNOWN_PROPS: [KnownProp; 20] = [
    KnownProp::K1,
    KnownProp::K2,
    KnownProp::K3,
    KnownProp::K4,
    KnownProp::K5,
    KnownProp::K6,
    KnownProp::K7,
    KnownProp::K8,
    KnownProp::K9,
    KnownProp::K10,
    KnownProp::K11,
    KnownProp::K12,
    KnownProp::K13,
    KnownProp::K14,
    KnownProp::K15,
    KnownProp::K16,
    KnownProp::K17,
    KnownProp::K18,
    KnownProp::K19,
    KnownProp::K20,
];

impl Named for KnownProp {
    ghost iri = { known_iri };

    #[tactic(auto, unfolding(crate::specs::KnownProp::known_iri, crate::specs::Class::cim_namespace))]
    fn iri(&self) -> &'static str {
        match self {
            KnownProp::K1 => "http://www.w3.org/1999/02/22-rdf-syntax-ns#type",
            KnownProp::K2 => "http://iec.ch/TC57/CIM100#Terminal.ConductingEquipment",
            KnownProp::K3 => "http://iec.ch/TC57/CIM100#Terminal.ConnectivityNode",
            KnownProp::K4 => "http://iec.ch/TC57/CIM100#Terminal.phases",
            KnownProp::K5 => "http://iec.ch/TC57/CIM100#ACDCTerminal.sequenceNumber",
            KnownProp::K6 => "http://iec.ch/TC57/CIM100#Switch.normalOpen",
            KnownProp::K7 => "http://iec.ch/TC57/CIM100#Switch.open",
            KnownProp::K8 => "http://iec.ch/TC57/CIM100#Conductor.length",
            KnownProp::K9 => "http://iec.ch/TC57/CIM100#Clamp.ACLineSegment",
            KnownProp::K10 => "http://iec.ch/TC57/CIM100#Clamp.lengthFromTerminal1",
            KnownProp::K11 => "http://iec.ch/TC57/CIM100#Cut.ACLineSegment",
            KnownProp::K12 => "http://iec.ch/TC57/CIM100#Cut.lengthFromTerminal1",
            KnownProp::K13 => "http://iec.ch/TC57/CIM100#ACLineSegmentPhase.ACLineSegment",
            KnownProp::K14 => "http://iec.ch/TC57/CIM100#ACLineSegmentPhase.phase",
            KnownProp::K15 => "http://iec.ch/TC57/CIM100#EnergyConsumerPhase.EnergyConsumer",
            KnownProp::K16 => "http://iec.ch/TC57/CIM100#EnergyConsumerPhase.phase",
            KnownProp::K17 => "http://iec.ch/TC57/CIM100#SwitchPhase.Switch",
            KnownProp::K18 => "http://iec.ch/TC57/CIM100#SwitchPhase.closed",
            KnownProp::K19 => "http://iec.ch/TC57/CIM100#SwitchPhase.phaseSide1",
            KnownProp::K20 => "http://iec.ch/TC57/CIM100#SwitchPhase.phaseSide2",
        }
    }
}

/// The known property with this IRI.
#[tactic(auto, unfolding(crate::specs::KnownProp::known_prop))]
pub(crate) fn known_with_iri(text: &str) -> Option<KnownProp>
    ensures { result ≡ known_prop text.now }
{
    with_iri(&KNOWN_PROPS, text)
}

/// Each known property is the one that its IRI names: no two rows of the table share a name.
pub fn known_props_are_named()
    ensures { (known : KnownProp) → known_prop (known_iri known) ≡ Some known }
{}
