//! Tests of classes.

ghost use Rattle.std.specs.Prelude.{◌≡◌};
ghost use Rattle.cim_profile.specs.Facts.{kind_test};

use cim_words::{Class, KnownProp};

/// What a class may be asked for.
#[derive(Clone, Copy)]
pub(crate) enum Kind {
    Terminal,
    Node,
    Segment,
    Cut,
    Clamp,
    /// What has one terminal.
    Single,
    /// A segment or a switch.
    TwoEnded,
    /// What is no equipment.
    Part,
    SwitchPhase,
    /// A class that has a meaning here.
    Known,
    /// A class on whose subjects the property counts.
    Carrying(KnownProp),
}

impl Kind {
    /// Whether a class is of this kind.
    pub(crate) fn holds_of(self, class: Class) -> bool
        ensures { result ≡ kind_test self class }
    {
        match self {
            Kind::Terminal => class.is_terminal(),
            Kind::Node => class.is_node(),
            Kind::Segment => class.is_segment(),
            Kind::Cut => class.is_cut(),
            Kind::Clamp => class.is_clamp(),
            Kind::Single => class.is_single(),
            Kind::TwoEnded => class.has_two_ends(),
            Kind::Part => class.is_part(),
            Kind::SwitchPhase => class.is_switch_phase(),
            Kind::Known => class.is_known(),
            Kind::Carrying(known) => known.counts_on(class),
        }
    }
}
