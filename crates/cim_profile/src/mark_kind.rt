//! The two kinds of marks of a segment.

ghost use Rattle.std.specs.Prelude.{◌≡◌};
ghost use Rattle.cim_profile.specs.MarkKind as spec;

use crate::kind::Kind;
use cim_words::KnownProp;

/// What marks a length of a segment.
#[derive(Clone, Copy)]
pub(crate) enum MarkKind {
    Cut,
    Clamp,
}

impl MarkKind {
    /// The class of such marks.
    pub(crate) fn class(self) -> Kind
        ensures { result ≡ spec.class_of self }
    {
        match self {
            MarkKind::Cut => Kind::Cut,
            MarkKind::Clamp => Kind::Clamp,
        }
    }

    /// The property by which such a mark names its segment.
    pub(crate) fn segment(self) -> KnownProp
        ensures { result ≡ spec.segment_of self }
    {
        match self {
            MarkKind::Cut => KnownProp::CUT_SEGMENT,
            MarkKind::Clamp => KnownProp::CLAMP_SEGMENT,
        }
    }

    /// The property by which such a mark states its length.
    pub(crate) fn length(self) -> KnownProp
        ensures { result ≡ spec.length_of self }
    {
        match self {
            MarkKind::Cut => KnownProp::CUT_LENGTH,
            MarkKind::Clamp => KnownProp::CLAMP_LENGTH,
        }
    }
}
