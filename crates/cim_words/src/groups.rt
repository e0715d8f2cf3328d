//! The groups of classes, and the classes on which a property counts.

ghost use Rattle.std.specs.Prelude.{◌≡◌};
ghost use Rattle.cim_words.specs.Groups as spec;

use crate::class::Class;
use crate::known_prop::KnownProp;

impl Class {
    /// Whether subjects of the class are terminals.
    pub fn is_terminal(self) -> bool
        ensures { result ≡ spec.is_terminal self }
    {
        matches!(self, Class::Terminal)
    }

    /// Whether they are connectivity nodes.
    pub fn is_node(self) -> bool
        ensures { result ≡ spec.is_node self }
    {
        matches!(self, Class::ConnectivityNode)
    }

    /// Whether they are line segments.
    pub fn is_segment(self) -> bool
        ensures { result ≡ spec.is_segment self }
    {
        matches!(self, Class::ACLineSegment)
    }

    /// Whether they are cuts.
    pub fn is_cut(self) -> bool
        ensures { result ≡ spec.is_cut self }
    {
        matches!(self, Class::Cut)
    }

    /// Whether they are clamps.
    pub fn is_clamp(self) -> bool
        ensures { result ≡ spec.is_clamp self }
    {
        matches!(self, Class::Clamp)
    }

    /// Whether they are phases of a line segment.
    pub fn is_segment_phase(self) -> bool
        ensures { result ≡ spec.is_segment_phase self }
    {
        matches!(self, Class::ACLineSegmentPhase)
    }

    /// Whether they are phases of a consumer.
    pub fn is_consumer_phase(self) -> bool
        ensures { result ≡ spec.is_consumer_phase self }
    {
        matches!(self, Class::EnergyConsumerPhase)
    }

    /// Whether they are phases of a switch.
    pub fn is_switch_phase(self) -> bool
        ensures { result ≡ spec.is_switch_phase self }
    {
        matches!(self, Class::SwitchPhase)
    }

    /// Whether they are switches, cuts among them.
    pub fn is_switch(self) -> bool
        ensures { result ≡ spec.is_switch self }
    {
        matches!(
            self,
            Class::Switch
                | Class::Breaker
                | Class::Disconnector
                | Class::Fuse
                | Class::LoadBreakSwitch
                | Class::Recloser
                | Class::Sectionaliser
                | Class::GroundDisconnector
                | Class::Jumper
                | Class::Cut
        )
    }

    /// Whether they pass current between all their terminals.
    pub fn is_passing(self) -> bool
        ensures { result ≡ spec.is_passing self }
    {
        matches!(
            self,
            Class::Junction | Class::BusbarSection | Class::SeriesCompensator
        )
    }

    /// Whether they are transformers.
    pub fn is_transformer(self) -> bool
        ensures { result ≡ spec.is_transformer self }
    {
        matches!(self, Class::PowerTransformer)
    }

    /// Whether they have one terminal.
    pub fn is_single(self) -> bool
        ensures { result ≡ spec.is_single self }
    {
        matches!(
            self,
            Class::Clamp | Class::Ground | Class::EnergySource | Class::EnergyConsumer
        )
    }

    /// Whether they are phases of equipment as objects of their own.
    pub fn is_phase_object(self) -> bool
        ensures { result ≡ spec.is_phase_object self }
    {
        matches!(
            self,
            Class::ACLineSegmentPhase | Class::EnergyConsumerPhase | Class::SwitchPhase
        )
    }

    /// Whether the class has a meaning here.
    pub fn is_known(self) -> bool
        ensures { result ≡ spec.is_known_class self }
    {
        !matches!(self, Class::Other)
    }

    /// Whether they are equipment with two terminals.
    pub fn has_two_ends(self) -> bool
        ensures { result ≡ spec.has_two_ends self }
    {
        self.is_segment() || self.is_switch()
    }

    /// Whether they are equipment.
    pub fn is_equipment(self) -> bool
        ensures { result ≡ spec.is_equipment_class self }
    {
        self.has_two_ends() || self.is_passing() || self.is_transformer() || self.is_single()
    }

    /// Whether they are parts of the network that are no equipment.
    pub fn is_part(self) -> bool
        ensures { result ≡ spec.is_part self }
    {
        self.is_terminal() || self.is_node() || self.is_phase_object()
    }
}

impl KnownProp {
    /// Whether the property counts on subjects of a class; elsewhere it is carried without effect.
    pub fn counts_on(self, class: Class) -> bool
        ensures { result ≡ spec.counts_on self class }
    {
        match self {
            KnownProp::K1 => true,
            KnownProp::K2 | KnownProp::K3 | KnownProp::K4 | KnownProp::K5 => class.is_terminal(),
            KnownProp::K6 | KnownProp::K7 => class.is_switch(),
            KnownProp::K8 => class.is_segment(),
            KnownProp::K9 | KnownProp::K10 => class.is_clamp(),
            KnownProp::K11 | KnownProp::K12 => class.is_cut(),
            KnownProp::K13 | KnownProp::K14 => class.is_segment_phase(),
            KnownProp::K15 | KnownProp::K16 => class.is_consumer_phase(),
            KnownProp::K17 | KnownProp::K18 | KnownProp::K19 | KnownProp::K20 =>
                class.is_switch_phase(),
        }
    }
}
