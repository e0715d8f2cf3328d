//! What joins many terminals at once.

ghost use Rattle.std.specs.Prelude.{◌≡◌};
ghost use Rattle.feeder_trace.specs.Hubs.{same_hub};
ghost use Rattle.feeder_trace.specs.declared.hub.Hub.{Hub};

use cim_words::Id;
use room_words::Anchor;

/// A place, or a section of a line.
#[derive(Clone, Copy, Debug, PartialEq, Eq, Hash)]
pub(crate) enum Hub {
    /// A place.
    Place(Anchor),
    /// The section at an index among those of a segment.
    Section(Id, usize),
}

/// Two hubs are equal where both are one place, or one section.
pub(crate) fn hubs_are_compared()
    ensures { (h k : Hub) → ⟦<Hub as PartialEq>⟧.eq h k ≡ same_hub h k }
{}
