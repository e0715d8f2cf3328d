//! The classes of the model (IEC 61970-301), in the order of this project's profile.

ghost use Rattle.std.specs.Prelude.{◌≡◌};
ghost use Rattle.cim_words.specs.Class.{class_of, class_iri};
ghost use Rattle.cim_words.specs.declared.class.Class.{Class};

use crate::table::{Named, with_iri};

/// A class of the model (IEC 61970-301, namespace CIM100).
#[derive(Clone, Copy, Debug, PartialEq, Eq, Hash)]
pub enum Class {
    /// A segment of line, with a terminal at each end.
    ACLineSegment,
    /// A switch of no stated kind.
    Switch,
    /// A switch that can break a fault.
    Breaker,
    /// A switch that is opened without current.
    Disconnector,
    /// A switch that opens by melting.
    Fuse,
    /// A switch that can break a load.
    LoadBreakSwitch,
    /// A breaker that closes again by itself.
    Recloser,
    /// A switch that opens while a recloser is open.
    Sectionaliser,
    /// A disconnector to ground.
    GroundDisconnector,
    /// A short conductor that is placed and removed by hand.
    Jumper,
    /// A place where a segment is separated.
    Cut,
    /// A point where conductors meet.
    Junction,
    /// A conductor that joins other equipment of a substation.
    BusbarSection,
    /// A reactor or capacitor in series.
    SeriesCompensator,
    /// A transformer.
    PowerTransformer,
    /// A galvanic connection along a segment.
    Clamp,
    /// A point where the system is grounded.
    Ground,
    /// A source that feeds the network.
    EnergySource,
    /// A load.
    EnergyConsumer,
    /// The point that joins equipment to a node.
    Terminal,
    /// A point where terminals meet without impedance.
    ConnectivityNode,
    /// One phase of a segment.
    ACLineSegmentPhase,
    /// One phase of a load.
    EnergyConsumerPhase,
    /// One phase of a switch.
    SwitchPhase,
    /// Any class that is not in this table.
    Other,
}

/// Every class.
pub const CLASSES: [Class; 25] = [
    Class::ACLineSegment,
    Class::Switch,
    Class::Breaker,
    Class::Disconnector,
    Class::Fuse,
    Class::LoadBreakSwitch,
    Class::Recloser,
    Class::Sectionaliser,
    Class::GroundDisconnector,
    Class::Jumper,
    Class::Cut,
    Class::Junction,
    Class::BusbarSection,
    Class::SeriesCompensator,
    Class::PowerTransformer,
    Class::Clamp,
    Class::Ground,
    Class::EnergySource,
    Class::EnergyConsumer,
    Class::Terminal,
    Class::ConnectivityNode,
    Class::ACLineSegmentPhase,
    Class::EnergyConsumerPhase,
    Class::SwitchPhase,
    Class::Other,
];

impl Named for Class {
    ghost iri = { class_iri };

    #[tactic(auto, unfolding(crate::specs::Class::class_iri, crate::specs::Class::class_name, crate::specs::Class::cim_namespace))]
    fn iri(&self) -> &'static str {
        match self {
            Class::ACLineSegment => "http://iec.ch/TC57/CIM100#ACLineSegment",
            Class::Switch => "http://iec.ch/TC57/CIM100#Switch",
            Class::Breaker => "http://iec.ch/TC57/CIM100#Breaker",
            Class::Disconnector => "http://iec.ch/TC57/CIM100#Disconnector",
            Class::Fuse => "http://iec.ch/TC57/CIM100#Fuse",
            Class::LoadBreakSwitch => "http://iec.ch/TC57/CIM100#LoadBreakSwitch",
            Class::Recloser => "http://iec.ch/TC57/CIM100#Recloser",
            Class::Sectionaliser => "http://iec.ch/TC57/CIM100#Sectionaliser",
            Class::GroundDisconnector => "http://iec.ch/TC57/CIM100#GroundDisconnector",
            Class::Jumper => "http://iec.ch/TC57/CIM100#Jumper",
            Class::Cut => "http://iec.ch/TC57/CIM100#Cut",
            Class::Junction => "http://iec.ch/TC57/CIM100#Junction",
            Class::BusbarSection => "http://iec.ch/TC57/CIM100#BusbarSection",
            Class::SeriesCompensator => "http://iec.ch/TC57/CIM100#SeriesCompensator",
            Class::PowerTransformer => "http://iec.ch/TC57/CIM100#PowerTransformer",
            Class::Clamp => "http://iec.ch/TC57/CIM100#Clamp",
            Class::Ground => "http://iec.ch/TC57/CIM100#Ground",
            Class::EnergySource => "http://iec.ch/TC57/CIM100#EnergySource",
            Class::EnergyConsumer => "http://iec.ch/TC57/CIM100#EnergyConsumer",
            Class::Terminal => "http://iec.ch/TC57/CIM100#Terminal",
            Class::ConnectivityNode => "http://iec.ch/TC57/CIM100#ConnectivityNode",
            Class::ACLineSegmentPhase => "http://iec.ch/TC57/CIM100#ACLineSegmentPhase",
            Class::EnergyConsumerPhase => "http://iec.ch/TC57/CIM100#EnergyConsumerPhase",
            Class::SwitchPhase => "http://iec.ch/TC57/CIM100#SwitchPhase",
            Class::Other => "http://iec.ch/TC57/CIM100#Other",
        }
    }
}

impl Class {
    /// The class that an IRI names, `Other` where the table has none.
    #[tactic(auto, unfolding(crate::specs::Class::class_of))]
    pub fn of_iri(text: &str) -> Class
        ensures { result ≡ class_of text.now }
    {
        with_iri(&CLASSES, text).unwrap_or(Class::Other)
    }
}

/// Each class is the one that its IRI names: no two rows of the table share a name.
pub fn classes_are_named()
    ensures { (class : Class) → class_of (class_iri class) ≡ class }
{}
